// The check of a step under the table of sort rules in use: 30, 40, 41, 14, 15, 16, 18, 1, 17, and then its rule.
// Kept: the two arrays of a pool come one by one in a call that users make, as document 01 lends them.
ghost use Rattle.std.specs.Prelude.{min, ◌≡◌};
ghost use Rattle.descriptions.specs.IndexedPool.{HasIndex, SameArrays, IndexedAgain};
ghost use Rattle.pool.specs.Check.{check_pool, Indexed, CheckedTerm};
ghost use Rattle.answers.specs.Outcome.{answer_of};
ghost use Rattle.answers.specs.Refusal.{answer_of_check};
ghost use Rattle.rules.specs.Step.{rule_outcome, Step};
ghost use Rattle.rules.specs.RuleCode.{code_of};
ghost use Rattle.rules.specs.StepWalk.{Ready, Judged};

use crate::rule::{CNF, Rule, rule_of};
use clausification::qnt_cnf::qnt_cnf;
use miniscoping::miniscope_distribute::miniscope_distribute;
use miniscoping::miniscope_ite::miniscope_ite;
use miniscoping::miniscope_split::miniscope_split;
use pool::checks::index_pool;
use pool::description::cut_back;
use pool::index::{INDEX, IndexedPool};
use pool::{Answer, Pool, Refusal, TermPlace};
use quantifier_rules::qnt_join::qnt_join;
use quantifier_rules::qnt_rm_unused::qnt_rm_unused;

// A length as a carried number.
fn carried(k: usize) -> u32
    ensures { result ≡ min 4294967295 k }
{
    if k <= 4294967295 {
        return k as u32;
    }
    4294967295
}

// The rule on the conclusion at x, which has passed its checks. Rule 3 leaves zeroes past the count; the others build nothing.
fn apply(pool: &mut IndexedPool<'_>, rule: Rule, x: TermPlace) -> Result<(), Refusal>
    requires has_index { HasIndex pool.old }
    requires checked_term { CheckedTerm pool.old.tags.now pool.old.values.now pool.old.count x.0 }
    ensures judged { Judged pool.old.count (code_of rule) (answer_of (rule_outcome pool.old.tags.now pool.old.values.now pool.old.count (code_of rule) x.0)) (answer_of_check result) pool.old.tags.now pool.old.values.now pool.new.tags.now pool.new.values.now }
    ensures indexed_again { IndexedAgain pool.old pool.new }
    ensures same_arrays { SameArrays pool.old pool.new }
{
    let n = pool.count;
    let source = pool.pool();
    match rule {
        Rule::Join => qnt_join(&source, x),
        Rule::RmUnused => qnt_rm_unused(&source, n, x),
        Rule::Cnf => qnt_cnf(pool, x),
        Rule::Distribute => miniscope_distribute(&source, x),
        Rule::Split => miniscope_split(&source, n, x),
        Rule::Ite => miniscope_ite(&source, n, x),
    }
}

// The checks before the rule, after the pool check, which has said `checked`. The rule and the conclusion's place, if they pass.
fn before_rule(
    checked: Result<(), Refusal>,
    pool: &Pool<'_>,
    n: usize,
    code: u32,
    conclusion: &[u32],
) -> Result<(Rule, TermPlace), Refusal>
    ensures { Ready pool.now.tags.now n code conclusion.now (answer_of_check checked) result }
{
    checked?;
    let rule = rule_of(code).ok_or(Refusal::UnknownRule(code))?;
    if conclusion.len() != 1 {
        return Err(Refusal::ConclusionCount(carried(conclusion.len())));
    }
    let x = TermPlace(conclusion[0]);
    if !pool.is_term(n, x) {
        return Err(Refusal::NotATerm(x));
    }
    Ok((rule, x))
}

// The check of a step in a pool whose own check under this table has said `checked` and left the index: many steps over one pool
// ask for that once.
pub fn check_after(
    checked: Result<(), Refusal>,
    pool: &mut IndexedPool<'_>,
    table: &[u32],
    rule: u32,
    conclusion: &[u32],
) -> Answer
    requires checked_value { answer_of_check checked ≡ check_pool pool.old.tags.now pool.old.values.now table.now pool.old.count }
    requires indexed { Indexed pool.old.tags.now pool.old.values.now pool.old.count (answer_of_check checked) pool.old.index.now }
    ensures step { Step pool.old.tags.now pool.old.values.now table.now pool.old.count rule conclusion.now result pool.new.tags.now pool.new.values.now }
    ensures indexed_2 { Indexed pool.old.tags.now pool.old.values.now pool.old.count (answer_of_check checked) pool.new.index.now }
    ensures count { pool.new.count ≡ pool.old.count }
    ensures same_arrays { SameArrays pool.old pool.new }
{
    let n = pool.count;
    match before_rule(checked, &pool.pool(), n, rule, conclusion) {
        Ok((named, x)) => Answer::from(apply(pool, named, x)),
        Err(refusal) => {
            if rule == CNF && !refusal.is_bad_arrays() {
                cut_back(pool.tags, pool.values, n);
            }
            Answer::from(refusal)
        }
    }
}

// The check of a step whose conclusion is given by its places. Rule 3 builds: it leaves zeroes past the count, with every answer but 30.
pub fn check(
    tags: &mut [u8],
    values: &mut [u32],
    table: &[u32],
    count: usize,
    rule: u32,
    conclusion: &[u32],
) -> Answer
    ensures { Step tags.old values.old table.now count rule conclusion.now result tags.new values.new }
{
    let mut index = [0u32; INDEX];
    let checked = index_pool(&Pool { tags, values }, table, count, &mut index);
    let mut pool = IndexedPool {
        tags,
        values,
        index: &mut index,
        count,
    };
    check_after(checked, &mut pool, table, rule, conclusion)
}
