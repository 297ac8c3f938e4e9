// The places of a run: whether it is at one that a start and turns come to, and the next.
#![tactic(auto)]

ghost use Rattle.std.specs.Prelude.{◌≡◌, true, [], ◌∷◌, ◌+◌, ◌-◌, ◌≤◌, ◌<◌, ltb};
ghost use Rattle.machine.specs.Tests.{every, is_in};
ghost use Rattle.machine.specs.Setting.{chosen, max_m, max_n, max_k};
ghost use Rattle.run.specs.Plan.{type_of};
ghost use Rattle.run.specs.Places.{head_m, head_n, head_k, next};
ghost use Rattle.run.specs.Turn.{starts_m, starts_n, starts_k, begins, sound_run, run_parameters, run_shape, moved};
ghost use Rattle.numbers.specs.Blocks.{chunks};
ghost use Rattle.run_place.specs.Parts.{numbered, at_place};
ghost use Rattle.run_plan.specs.Parts.{in_matrices};

use run::{Place, Run};

// ---- blocks, and runs that a start can have made

// The most rows of a block.
pub fn most_rows(run: Run) -> u64
    requires { numbered run ≡ true }
    ensures { result ≡ max_m (run_parameters chosen run) (type_of run.plan) }
{
    run.mlen / run.rlen
}

// The most columns.
pub fn most_columns(run: Run) -> u64
    requires { numbered run ≡ true }
    ensures { result ≡ max_n (run_parameters chosen run) (type_of run.plan) }
{
    let bytes = run.plan.sew / 8;
    run.rlen / 8 / bytes
}

// The most terms.
pub fn most_terms(run: Run) -> u64
    requires { numbered run ≡ true }
    ensures { result ≡ max_k (run_parameters chosen run) (type_of run.plan) }
{
    let rows = most_rows(run);
    let columns = most_columns(run);
    numbers::smaller(rows, columns)
}

// Where the block that starts here ends: it takes what the rule gives of the rest.
pub fn block_end(rule: u64, total: u64, at: u64, most: u64) -> u64
    requires { at ≤ total }
    ensures { result ≡ at + chosen rule most (total - at) }
{
    at + unit_start::chosen(rule, most, total - at)
}

// Whether a block starts here: at 0, or where the block of the last multiple of the most before it ends.
fn starts_block(rule: u64, total: u64, at: u64, most: u64) -> bool
    requires { (0 < most) × (at < total) }
    ensures { result ≡ is_in at (chunks (chosen rule) most total 0) }
{
    if at == 0 {
        return true;
    }
    let base = (at - 1) / most * most;
    block_end(rule, total, base, most) == at
}

// Whether a block of rows starts at this row.
fn starts_rows(run: Run, row: u64) -> bool
    requires run_value { numbered run ≡ true }
    requires row_lt_m { row < run.plan.m }
    ensures { result ≡ starts_m (run_shape chosen run) row }
{
    let most = most_rows(run);
    starts_block(run.rule, run.plan.m, row, most)
}

fn starts_columns(run: Run, column: u64) -> bool
    requires run_value { numbered run ≡ true }
    requires column_lt_n { column < run.plan.n }
    ensures { result ≡ starts_n (run_shape chosen run) column }
{
    let most = most_columns(run);
    starts_block(run.rule, run.plan.n, column, most)
}

fn starts_terms(run: Run, term: u64) -> bool
    requires run_value { numbered run ≡ true }
    requires term_lt_k { term < run.plan.k }
    ensures { result ≡ starts_k (run_shape chosen run) term }
{
    let most = most_terms(run);
    starts_block(run.rule, run.plan.k, term, most)
}

fn starts_product(run: Run, row: u64, column: u64) -> bool
    requires run_value { numbered run ≡ true }
    requires n_value { every (ltb row run.plan.m ∷ ltb column run.plan.n ∷ []) ≡ true }
    ensures { result ≡ every (starts_m (run_shape chosen run) row ∷ starts_n (run_shape chosen run) column ∷ []) }
{
    starts_rows(run, row) && starts_columns(run, column)
}

fn starts_sums(run: Run, row: u64, column: u64, term: u64) -> bool
    requires run_value { numbered run ≡ true }
    requires k_value { every (ltb row run.plan.m ∷ ltb column run.plan.n ∷ ltb term run.plan.k ∷ []) ≡ true }
    ensures { result ≡ every (starts_m (run_shape chosen run) row ∷ starts_n (run_shape chosen run) column ∷ starts_k (run_shape chosen run) term ∷ []) }
{
    starts_rows(run, row) && starts_columns(run, column) && starts_terms(run, term)
}

// Whether blocks start at the place of a run.
fn is_begun(run: Run) -> bool
    requires run_value { numbered run ≡ true }
    requires place_value { in_matrices run.plan run.place ≡ true }
    ensures { result ≡ begins (run_shape chosen run) run.place }
{
    match run.place {
        Place::AtType => true,
        Place::AtM { row } => starts_rows(run, row),
        Place::AtN { row, column }
        | Place::AtClear { row, column }
        | Place::AtStore { row, column } => starts_product(run, row, column),
        Place::AtK { row, column, term }
        | Place::AtA { row, column, term }
        | Place::AtB { row, column, term }
        | Place::AtMultiply { row, column, term } => starts_sums(run, row, column, term),
        Place::AtEnd => true,
    }
}

// Whether the numbers of a run are ones that a run can hold, and its place one that a run comes to.
#[tactic(auto, unfolding(run::specs::Turn::sound_run, crate::specs::Parts::numbered), using(crate::proofs::RunPlaceLaws::no_block))]
pub fn is_sound_run(run: Run) -> bool
    ensures { result ≡ sound_run chosen run }
{
    unit_start::permitted_lengths(run.rlen, run.mlen, run.elen)
        && unit_start::is_rule(run.rule)
        && run_plan::is_planned(run.elen, run.plan)
        && run_plan::is_placed(run.plan, run.place)
        && is_begun(run)
}

// ---- the next place

// Where a loop of a run goes on: at its next block, or past it.
fn head_rows(run: Run, row: u64) -> Place
    ensures { result ≡ head_m (run_shape chosen run) row }
{
    if row < run.plan.m {
        return Place::AtM { row };
    }
    Place::AtEnd
}

fn head_columns(run: Run, row: u64, column: u64) -> Place
    requires run_value { numbered run ≡ true }
    requires row_le_m { row ≤ run.plan.m }
    ensures { result ≡ head_n (run_shape chosen run) row column }
{
    if column < run.plan.n {
        return Place::AtN { row, column };
    }
    let most = most_rows(run);
    let end = block_end(run.rule, run.plan.m, row, most);
    head_rows(run, end)
}

fn head_terms(run: Run, row: u64, column: u64, term: u64) -> Place
    ensures { result ≡ head_k (run_shape chosen run) row column term }
{
    if term < run.plan.k {
        return Place::AtK { row, column, term };
    }
    Place::AtStore { row, column }
}

// The place after that of a run.
pub fn next_place(run: Run) -> Place
    requires { sound_run chosen run ≡ true }
    ensures { result ≡ next (run_shape chosen run) run.place }
{
    match run.place {
        Place::AtType => head_rows(run, 0),
        Place::AtM { row } => head_columns(run, row, 0),
        Place::AtN { row, column } => Place::AtClear { row, column },
        Place::AtClear { row, column } => head_terms(run, row, column, 0),
        Place::AtK { row, column, term } => Place::AtA { row, column, term },
        Place::AtA { row, column, term } => Place::AtB { row, column, term },
        Place::AtB { row, column, term } => Place::AtMultiply { row, column, term },
        Place::AtMultiply { row, column, term } => {
            let most = most_terms(run);
            let end = block_end(run.rule, run.plan.k, term, most);
            head_terms(run, row, column, end)
        }
        Place::AtStore { row, column } => {
            let most = most_columns(run);
            let end = block_end(run.rule, run.plan.n, column, most);
            head_columns(run, row, end)
        }
        Place::AtEnd => Place::AtEnd,
    }
}

// The run at another place.
pub fn at_place(run: Run, place: Place) -> Run
    ensures { result ≡ at_place run place }
{
    Run { place, ..run }
}

// The run at its next place.
pub fn moved_run(run: Run) -> Run
    requires { sound_run chosen run ≡ true }
    ensures { result ≡ moved chosen run }
{
    at_place(run, next_place(run))
}
