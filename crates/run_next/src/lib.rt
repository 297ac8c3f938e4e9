// One word at a time: the step handed out at the place of a run, and how many there are.
#![tactic(auto)]

ghost use Rattle.std.specs.Prelude.{◌≡◌, true, ◌+◌, ◌*◌, ◌≤◌, ◌<◌};
ghost use Rattle.machine.specs.Setting.{chosen};
ghost use Rattle.run.specs.Words.{set_type, clear, multiply, load_a, load_b, store};
ghost use Rattle.run.specs.Plan.{narrow, msew};
ghost use Rattle.run.specs.Start.{planned};
ghost use Rattle.run.specs.Places.{word_at};
ghost use Rattle.run.specs.Turn.{sound_run, run_shape, steps_in, ask, asked, asked_as};
ghost use Rattle.numbers.specs.Blocks.{count};
ghost use Rattle.numbers.specs.Bounds.{most_elen, most_mlen};
ghost use Rattle.run_next.specs.Parts.{is_end, handed_of};
ghost use Rattle.run.specs.Encoding.{setting_word, memory_word, arithmetic_word, plain, address_in, handed_for};

use machine::Refusal;
use run::{Asked, Handed, Layout, Place, Plan, Run};

// ---- the words

fn setting_word(code: u32, immediate: u64) -> u32
    requires { (code ≤ 6) × (immediate ≤ 1024) }
    ensures { result ≡ setting_word code immediate }
{
    code * 0x1000_0000 + (immediate as u32) * 32768 + 28791
}

fn memory_word(code: u32, width: u32, register: u32) -> u32
    requires { (code ≤ 10) × ((width ≤ 5) × (register ≤ 1)) }
    ensures { result ≡ memory_word code width register }
{
    code * 0x200_0000 + width * 4096 + register * 128 + 11862135
}

fn arithmetic_word(code: u32, field: u32) -> u32
    requires { (code ≤ 18) × (field ≤ 1) }
    ensures { result ≡ arithmetic_word code field }
{
    code * 0x400_0000 + field * 0x10_0000 + 24695
}

// ---- the steps

// A step that names no address.
fn plain_step(word: u32) -> Handed
    ensures { result ≡ plain word }
{
    Handed {
        word,
        address: 0,
        stride: 0,
    }
}

fn hand_setting(code: u32, immediate: u64) -> Handed
    requires { (code ≤ 6) × (immediate ≤ 1024) }
    ensures { result ≡ plain (setting_word code immediate) }
{
    plain_step(setting_word(code, immediate))
}

fn hand_type(plan: Plan) -> Handed
    ensures { result ≡ handed_for plan set_type }
{
    hand_setting(0, run_plan::type_of(plan))
}

fn hand_clear(plan: Plan) -> Handed
    ensures { result ≡ handed_for plan clear }
{
    let code = run_plan::factor_code(plan.factor);
    plain_step(arithmetic_word(16 + code, 0))
}

fn hand_multiply(plan: Plan) -> Handed
    ensures { result ≡ handed_for plan multiply }
{
    if plan.kind == 2 {
        // mfma.mm: mma.mm with bit 25 set.
        return plain_step(0x0210_6077);
    }
    let code = run_plan::factor_code(plan.factor);
    plain_step(arithmetic_word(code, 1))
}

// A load of a register from so many elements into a row of A or B.
fn hand_load(plan: Plan, code: u32, register: u32, layout: Layout, row: u64, column: u64) -> Handed
    requires plan_value { planned most_elen plan ≡ true }
    requires code_bound { (code ≤ 10) × (register ≤ 1) }
    requires row_bound { (row ≤ 1024) × (column ≤ 1024) }
    ensures { result ≡ record { word = memory_word code (msew plan) register; address = address_in layout row (column * narrow plan); stride = layout.stride } }
{
    let bytes = run_plan::narrow_bytes(plan);
    Handed {
        word: memory_word(code, run_plan::width_code(plan), register),
        address: run_plan::element_address(layout, row, column, bytes),
        stride: layout.stride,
    }
}

fn hand_load_a(plan: Plan, row: u64, term: u64) -> Handed
    requires plan_value { planned most_elen plan ≡ true }
    requires row_bound { (row ≤ 1024) × (term ≤ 1024) }
    ensures { result ≡ handed_for plan (load_a row term) }
{
    let code = run_plan::load_code(plan);
    let line = run_plan::a_row(plan, row, term);
    let column = run_plan::a_column(plan, row, term);
    hand_load(plan, code, 0, plan.a, line, column)
}

fn hand_load_b(plan: Plan, term: u64, column: u64) -> Handed
    requires plan_value { planned most_elen plan ≡ true }
    requires term_bound { (term ≤ 1024) × (column ≤ 1024) }
    ensures { result ≡ handed_for plan (load_b term column) }
{
    hand_load(plan, 4, 1, plan.b, term, column)
}

fn hand_store(plan: Plan, row: u64, column: u64) -> Handed
    requires plan_value { planned most_elen plan ≡ true }
    requires row_bound { (row ≤ 1024) × (column ≤ 1024) }
    ensures { result ≡ handed_for plan (store row column) }
{
    let width = run_plan::width_code(plan) + run_plan::factor_code(plan.factor);
    let bytes = run_plan::wide_bytes(plan);
    Handed {
        word: memory_word(1, width, 0),
        address: run_plan::element_address(plan.c, row, column, bytes),
        stride: plan.c.stride,
    }
}

// The step at the place of a run; all zeros at the end.
fn handed_at(run: Run) -> Handed
    requires { sound_run chosen run ≡ true }
    ensures { result ≡ handed_of run.plan (word_at (run_shape chosen run) run.place) }
{
    let plan = run.plan;
    match run.place {
        Place::AtType => hand_type(plan),
        Place::AtM { row } => hand_setting(2, plan.m - row),
        Place::AtN { column, .. } => hand_setting(6, plan.n - column),
        Place::AtClear { .. } => hand_clear(plan),
        Place::AtK { term, .. } => hand_setting(4, plan.k - term),
        Place::AtA { row, term, .. } => hand_load_a(plan, row, term),
        Place::AtB { column, term, .. } => hand_load_b(plan, term, column),
        Place::AtMultiply { .. } => hand_multiply(plan),
        Place::AtStore { row, column } => hand_store(plan, row, column),
        Place::AtEnd => plain_step(0),
    }
}

// ---- asking for a step

fn is_end(place: Place) -> bool
    ensures { result ≡ is_end place }
{
    matches!(place, Place::AtEnd)
}

// The next step of a run, and the run past it; 8 past the last, and of a run that no start can have made.
pub fn next(run: Run) -> Result<Asked, Refusal>
    ensures { asked_as run result ≡ asked (ask chosen run) }
{
    if !run_place::is_sound_run(run) {
        return Err(Refusal::BadArguments);
    }
    if is_end(run.place) {
        return Err(Refusal::BadArguments);
    }
    Ok(Asked {
        handed: handed_at(run),
        run: run_place::moved_run(run),
    })
}

// ---- the number of steps

// How many blocks of at most so many a size is cut into.
fn blocks(total: u64, most: u64) -> u64
    requires { (total ≤ 1024) × ((0 < most) × (most ≤ most_mlen)) }
    ensures { result ≡ count most total }
{
    (total + (most - 1)) / most
}

// How many steps so many blocks of rows, columns and terms have.
fn steps_by(rows: u64, columns: u64, terms: u64) -> u64
    requires { (rows ≤ 1024) × ((columns ≤ 1024) × (terms ≤ 1024)) }
    ensures { result ≡ 1 + rows * (1 + columns * (3 + 4 * terms)) }
{
    1 + rows * (1 + columns * (3 + 4 * terms))
}

// How many steps a run has in all; 0 of a run that no start can have made.
pub fn steps(run: Run) -> u64
    ensures { result ≡ steps_in chosen run }
{
    if !run_place::is_sound_run(run) {
        return 0;
    }
    let rows = blocks(run.plan.m, run_place::most_rows(run));
    let columns = blocks(run.plan.n, run_place::most_columns(run));
    let terms = blocks(run.plan.k, run_place::most_terms(run));
    steps_by(rows, columns, terms)
}
