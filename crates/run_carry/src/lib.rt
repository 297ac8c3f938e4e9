// Carrying out the word at the place of a run. What each function returns and leaves is that of the word's step (machine/specs/Step.antt).
#![tactic(auto)]

ghost use Rattle.std.specs.Prelude.{◌≡◌, true, List, [], ◌∷◌, ℕ, ◌*◌, ◌≤◌, ◌<◌};
ghost use Rattle.numbers.specs.Bounds.{most_elen};
ghost use Rattle.machine.specs.Answers.{reply, done, is_done, verdict, Done};
ghost use Rattle.machine.specs.Geometry.{Range, Bench, bench_of, state_of, register_count};
ghost use Rattle.machine.specs.Faults.{sound, seals_fit};
ghost use Rattle.unit_ranges.specs.Ranges.{seals_in};
ghost use Rattle.machine.specs.Refusals.{typed};
ghost use Rattle.machine.specs.Setting.{chosen};
ghost use Rattle.machine.specs.Operation.{Operation, times};
ghost use Rattle.unit_checks.specs.Parts.{MarksReady, target_checks};
ghost use Rattle.unit_execute.specs.Parts.{WritesRegisters};
ghost use Rattle.unit_settings.specs.Parts.{numbers_sound};
ghost use Rattle.run.specs.Plan.{narrow};
ghost use Rattle.run.specs.Words.{clear, load_a, load_b, multiply, store};
ghost use Rattle.run.specs.Encoding.{address_in};
ghost use Rattle.run_carry.specs.Parts.{carried, carried_for, carried_at, Multiplies};
ghost use Rattle.run.specs.Start.{planned};
ghost use Rattle.run.specs.Turn.{sound_run};

use machine::{Answer, Dimension, Factor, Form, Machine, Matrix, Refusal};
use run::{Layout, Place, Plan, Run};

// The output's width, as a plan has it.
fn plan_factor(plan: Plan) -> Factor
    requires { planned most_elen plan ≡ true }
    ensures { times result ≡ plan.factor }
{
    match plan.factor {
        4 => Factor::Quadruple,
        2 => Factor::Double,
        _ => Factor::Single,
    }
}

// The answer to a tile setting.
fn size_answer(m: Machine) -> Answer
    ensures { result ≡ verdict (typed (state_of m [] []) ∷ []) }
{
    if unit_settings::is_mill(m.mtype) {
        return Err(Refusal::IllegalType);
    }
    Ok(())
}

// Clears acc0.
fn clear(plan: Plan, m: Machine, registers: &mut [u8], marks: &mut [u8]) -> Answer
    requires marks_value { sound m registers.old marks.old ≡ true }
    requires plan_value { planned most_elen plan ≡ true }
    ensures { (seals : List Range) (memory : List ℕ) → seals_fit seals ≡ true → carried (reply result) m seals registers.new marks.new memory
        ≡ carried_for plan clear (bench_of m seals registers.old marks.old memory) }
{
    let factor = plan_factor(plan);
    unit_execute::reckoning::scale(m, registers, marks, factor, 0, 0, 0)
}

// Whether answers 2 to 4 of the run's multiply, and answer 5 of acc0, are Done.
pub fn is_ready(plan: Plan, m: Machine, marks: &[u8]) -> bool
    requires marks_ready { MarksReady m marks.now }
    requires plan_value { planned most_elen plan ≡ true }
    ensures { result ≡ is_done (verdict (target_checks m marks.now plan.factor 0)) }
{
    let factor = plan_factor(plan);
    unit_checks::written::check_target(m, marks, factor, 0).is_ok()
}

// Multiplies tr0 and tr1 to acc0, where that is not refused.
pub fn multiply_written(plan: Plan, m: Machine, registers: &mut [u8])
    requires plan_value { planned most_elen plan ≡ true }
    requires multiplies { Multiplies plan m registers.old }
    ensures { (seals : List Range) (marks memory : List ℕ) → sound m registers.old marks ≡ true → seals_fit seals ≡ true
        → done (carried_for plan multiply (bench_of m seals registers.old marks memory)).answer ≡ true
        → carried (reply Done) m seals registers.new marks memory ≡ carried_for plan multiply (bench_of m seals registers.old marks memory) }
{
    if plan.kind == 2 {
        unit_execute::reckoning::multiply_floats(m, registers, 0, 0, 1);
        return;
    }
    let factor = plan_factor(plan);
    unit_execute::reckoning::multiply_tiles(m, registers, factor, 0, 0, 1);
}

// Multiplies tr0 and tr1 to acc0.
fn multiply(plan: Plan, m: Machine, registers: &mut [u8], marks: &[u8]) -> Answer
    requires marks_value { sound m registers.old marks.now ≡ true }
    requires plan_value { planned most_elen plan ≡ true }
    ensures { (seals : List Range) (memory : List ℕ) → seals_fit seals ≡ true → carried (reply result) m seals registers.new marks.now memory
        ≡ carried_for plan multiply (bench_of m seals registers.old marks.now memory) }
{
    if plan.kind == 2 {
        return unit_execute::reckoning::float_multiply(m, registers, marks, 0, 0, 1);
    }
    let factor = plan_factor(plan);
    unit_execute::reckoning::multiply(m, registers, marks, factor, 0, 0, 1)
}

// Loads the block of A or B that starts at this row of memory and so many elements into it.
fn load(
    plan: Plan,
    m: Machine,
    registers: &mut [u8],
    marks: &mut [u8],
    memory: &[u8],
    form: Form,
    matrix: Matrix,
    md: usize,
    layout: Layout,
    row: u64,
    column: u64,
) -> Answer
    requires marks_value { sound m registers.old marks.old ≡ true }
    requires plan_value { planned most_elen plan ≡ true }
    requires row_bound { (row ≤ 1024) × (column ≤ 1024) }
    requires md_bound { md < register_count matrix }
    ensures { WritesRegisters m (Operation.load form matrix md (narrow plan) (address_in layout row (column * narrow plan)) layout.stride) registers.old marks.old memory.now result registers.new marks.new }
{
    let bytes = run_plan::narrow_bytes(plan);
    let start = run_plan::element_address(layout, row, column, bytes);
    unit_execute::transfers::load(
        m,
        registers,
        marks,
        memory,
        form,
        matrix,
        bytes as usize,
        md,
        start,
        layout.stride,
    )
}

// Loads tr0 from the block of A that starts at this row and term.
pub fn load_a(
    plan: Plan,
    m: Machine,
    registers: &mut [u8],
    marks: &mut [u8],
    memory: &[u8],
    row: u64,
    term: u64,
) -> Answer
    requires marks_value { sound m registers.old marks.old ≡ true }
    requires plan_value { planned most_elen plan ≡ true }
    requires row_bound { (row ≤ 1024) × (term ≤ 1024) }
    ensures { (seals : List Range) → seals_fit seals ≡ true → carried (reply result) m seals registers.new marks.new memory.now
        ≡ carried_for plan (load_a row term) (bench_of m seals registers.old marks.old memory.now) }
{
    let form = run_plan::form_of(plan);
    let line = run_plan::a_row(plan, row, term);
    let column = run_plan::a_column(plan, row, term);
    let layout = plan.a;
    load(
        plan,
        m,
        registers,
        marks,
        memory,
        form,
        Matrix::MatrixA,
        0,
        layout,
        line,
        column,
    )
}

// Loads tr1 from the block of B that starts at this term and column.
pub fn load_b(
    plan: Plan,
    m: Machine,
    registers: &mut [u8],
    marks: &mut [u8],
    memory: &[u8],
    term: u64,
    column: u64,
) -> Answer
    requires marks_value { sound m registers.old marks.old ≡ true }
    requires plan_value { planned most_elen plan ≡ true }
    requires term_bound { (term ≤ 1024) × (column ≤ 1024) }
    ensures { (seals : List Range) → seals_fit seals ≡ true → carried (reply result) m seals registers.new marks.new memory.now
        ≡ carried_for plan (load_b term column) (bench_of m seals registers.old marks.old memory.now) }
{
    let layout = plan.b;
    load(
        plan,
        m,
        registers,
        marks,
        memory,
        Form::Plain,
        Matrix::MatrixB,
        1,
        layout,
        term,
        column,
    )
}

// Stores acc0 to the block of C that starts at this row and column.
fn store(
    plan: Plan,
    m: Machine,
    seals: &[u8],
    registers: &[u8],
    marks: &[u8],
    memory: &mut [u8],
    row: u64,
    column: u64,
) -> Answer
    requires marks_value { sound m registers.now marks.now ≡ true }
    requires plan_value { planned most_elen plan ≡ true }
    requires row_bound { (row ≤ 1024) × (column ≤ 1024) }
    requires seals_value { seals_fit (seals_in seals.now) ≡ true }
    ensures { carried (reply result) m (seals_in seals.now) registers.now marks.now memory.new
        ≡ carried_for plan (store row column) (bench_of m (seals_in seals.now) registers.now marks.now memory.old) }
{
    let bytes = run_plan::wide_bytes(plan);
    let layout = plan.c;
    let start = run_plan::element_address(layout, row, column, bytes);
    unit_execute::transfers::store(
        m,
        seals,
        registers,
        marks,
        memory,
        Form::Plain,
        Matrix::MatrixC,
        bytes as usize,
        0,
        start,
        layout.stride,
    )
}

// Carries out the word at the place of a run that a start can have made, in a state that is not at fault: the instruction that the
// word decodes to, with its address and stride as numbers. The machine's numbers after it are those of `machine_after`.
pub fn carry_out(
    run: Run,
    m: Machine,
    seals: &[u8],
    registers: &mut [u8],
    marks: &mut [u8],
    memory: &mut [u8],
) -> Answer
    requires marks_value { sound m registers.old marks.old ≡ true }
    requires run_value { sound_run chosen run ≡ true }
    requires seals_value { seals_fit (seals_in seals.now) ≡ true }
    ensures { (let B : Bench = bench_of m (seals_in seals.now) registers.old marks.old memory.old in
        carried (reply result) (carried_at run B).bench.machine (seals_in seals.now) registers.new marks.new memory.new ≡ carried_at run B) }
{
    let plan = run.plan;
    match run.place {
        Place::AtType => Ok(()),
        Place::AtM { .. } => size_answer(m),
        Place::AtN { .. } => size_answer(m),
        Place::AtClear { .. } => clear(plan, m, registers, marks),
        Place::AtK { .. } => size_answer(m),
        Place::AtA { row, term, .. } => load_a(plan, m, registers, marks, memory, row, term),
        Place::AtB { column, term, .. } => load_b(plan, m, registers, marks, memory, term, column),
        Place::AtMultiply { .. } => multiply(plan, m, registers, marks),
        Place::AtStore { row, column } => store(
            plan, m, seals, registers, marks, memory, row, column,
        ),
        Place::AtEnd => Err(Refusal::BadArguments),
    }
}

// The machine's numbers after the word at the place of a run: only a setting changes them.
pub fn machine_after(run: Run, m: Machine) -> Machine
    requires m_value { numbers_sound m ≡ true }
    requires run_value { sound_run chosen run ≡ true }
    ensures { (seals : List Range) (registers marks memory : List ℕ) → sound m registers marks ≡ true → seals_fit seals ≡ true → result ≡ (carried_at run (bench_of m seals registers marks memory)).bench.machine }
{
    let plan = run.plan;
    match run.place {
        Place::AtType => unit_settings::with_type(
            m,
            unit_settings::kept_type(m.elen, run_plan::type_of(plan)),
        ),
        Place::AtM { row } => unit_settings::sized(m, Dimension::DimensionM, plan.m - row),
        Place::AtN { column, .. } => unit_settings::sized(
            m,
            Dimension::DimensionN,
            plan.n - column,
        ),
        Place::AtClear { .. } => m,
        Place::AtK { term, .. } => unit_settings::sized(m, Dimension::DimensionK, plan.k - term),
        Place::AtA { .. } => m,
        Place::AtB { .. } => m,
        Place::AtMultiply { .. } => m,
        Place::AtStore { .. } => m,
        Place::AtEnd => m,
    }
}
