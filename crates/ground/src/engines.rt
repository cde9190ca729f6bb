// The two engines behind one call, each for the search of the meaning that it answers.
ghost use Rattle.std.specs.Prelude.{◌≡◌, length};
ghost use Rattle.meaning.specs.Job.{Job, Sound};
ghost use Rattle.meaning.specs.Plain.{plain_search};
ghost use Rattle.meaning.specs.Walk.{walk};
ghost use Rattle.meaning.specs.Ground.{Engine};
ghost use Rattle.rule.specs.Rule.{rule_of};
ghost use Rattle.plan.specs.Plan.{plan_of};
ghost use Rattle.walk.specs.Stands.{Stands};
ghost use Rattle.walk.specs.Ran.{Ran, ended_of};

use plan::tables::Plan;
use rule::{INDEX_LIMIT, Rule};
use walk::run::run;
use walk::state::Ended;

pub trait Search {
    ghost engine: { Engine };

    fn search<'a>(
        rule: &'a Rule,
        plan: &'a Plan,
        rows: &'a [usize],
        index: &'a [u16; INDEX_LIMIT],
        cells: &'a [u32],
        allowance: u32,
        list: &mut [u32],
    ) -> Ended
        requires { plan.now ≡ plan_of (rule_of rule.now) }
        ensures { (J : Job) → Sound J → Stands J rule.now rows.now index.now cells.now → Ran J (engine J allowance (length list.old)) list.old (ended_of result) list.new };
}

pub struct Walk;

impl Search for Walk {
    ghost engine = { walk };

    fn search<'a>(
        rule: &'a Rule,
        plan: &'a Plan,
        rows: &'a [usize],
        index: &'a [u16; INDEX_LIMIT],
        cells: &'a [u32],
        allowance: u32,
        list: &mut [u32],
    ) -> Ended {
        run(rule, plan, rows, index, cells, allowance, list)
    }
}

pub struct Plain;

impl Search for Plain {
    ghost engine = { plain_search };

    fn search<'a>(
        rule: &'a Rule,
        plan: &'a Plan,
        rows: &'a [usize],
        index: &'a [u16; INDEX_LIMIT],
        cells: &'a [u32],
        allowance: u32,
        list: &mut [u32],
    ) -> Ended {
        plain::search(rule, plan, rows, index, cells, allowance, list)
    }
}
