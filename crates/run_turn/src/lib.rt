// Turns of a product run on a machine. What each returns and leaves is defined in run/specs/Turn.antt.
#![tactic(auto)]

ghost use Rattle.std.specs.Prelude.{◌≡◌, true, List, ◌≤◌};
ghost use Rattle.machine.specs.Geometry.{Range, bench_of};
ghost use Rattle.machine.specs.Faults.{sound, seals_fit};
ghost use Rattle.machine.specs.Setting.{chosen};
ghost use Rattle.unit_ranges.specs.Ranges.{seals_in};
ghost use Rattle.run.specs.declared.Place.TheVariants.{AtK};
ghost use Rattle.run.specs.Turn.{sound_run, running, turn_outcome, turned_as, turns, taken_as};
ghost use Rattle.run_place.specs.Parts.{at_place};
ghost use Rattle.run_carry.specs.Parts.{Steady};
ghost use Rattle.run_turn.specs.Parts.{Taking, Loaded, moved_as};

use machine::{Dimension, Machine, Refusal};
use run::{Place, Run, Taken, Turned};

// The run's place and the machine after a turn.
#[derive(Clone, Copy)]
struct Moved {
    place: Place,
    machine: Machine,
}

// What turns come to: how many were answered 0, and the run's place and the machine after them.
#[derive(Clone, Copy)]
struct Progress {
    count: u64,
    place: Place,
    machine: Machine,
}

// One turn of a run that a start can have made, in a state that is not at fault.
fn take_turn(
    run: Run,
    m: Machine,
    seals: &[u8],
    registers: &mut [u8],
    marks: &mut [u8],
    memory: &mut [u8],
) -> Result<Moved, Refusal>
    requires marks_value { sound m registers.old marks.old ≡ true }
    requires run_value { sound_run chosen run ≡ true }
    requires seals_value { seals_fit (seals_in seals.now) ≡ true }
    ensures { moved_as run m result (seals_in seals.now) registers.new marks.new memory.new
        ≡ turn_outcome chosen (running run (bench_of m (seals_in seals.now) registers.old marks.old memory.old)) }
{
    run_carry::carry_out(run, m, seals, registers, marks, memory)?;
    Ok(Moved {
        place: run_place::next_place(run),
        machine: run_carry::machine_after(run, m),
    })
}

// The turns that set k and load A and B at this row, column and term, until one is refused; after all three the multiply is not.
fn take_loads(
    run: Run,
    m: Machine,
    registers: &mut [u8],
    marks: &mut [u8],
    memory: &[u8],
    row: u64,
    column: u64,
    term: u64,
) -> Progress
    requires marks_value { sound m registers.old marks.old ≡ true }
    requires term_value { sound_run chosen (at_place run (AtK row column term)) ≡ true }
    requires steady { Steady run.plan m marks.old }
    ensures taking { (seals : List Range) → seals_fit seals ≡ true → Taking (running (at_place run (AtK row column term)) (bench_of m seals registers.old marks.old memory.now)) result.count
        (at_place run result.place) (bench_of result.machine seals registers.new marks.new memory.now) }
    ensures count_bound { result.count ≤ 3 }
    ensures loaded { 3 ≤ result.count → Loaded run.plan row column term result.place result.machine registers.new marks.new memory.now }
{
    let plan = run.plan;
    let machine = unit_settings::sized(m, Dimension::DimensionK, plan.k - term);
    let first = run_carry::load_a(plan, machine, registers, marks, memory, row, term);
    if first.is_err() {
        return Progress {
            count: 1,
            place: Place::AtA { row, column, term },
            machine,
        };
    }
    let second = run_carry::load_b(plan, machine, registers, marks, memory, term, column);
    if second.is_err() {
        return Progress {
            count: 2,
            place: Place::AtB { row, column, term },
            machine,
        };
    }
    Progress {
        count: 3,
        place: Place::AtMultiply { row, column, term },
        machine,
    }
}

// The turns of steps over k, four each, from this row, column and term on, until one is refused; no more than limit.
fn take_sums(
    limit: u64,
    run: Run,
    m: Machine,
    registers: &mut [u8],
    marks: &mut [u8],
    memory: &[u8],
    row: u64,
    column: u64,
    from: u64,
) -> Progress
    requires marks_value { sound m registers.old marks.old ≡ true }
    requires from_value { sound_run chosen (at_place run (AtK row column from)) ≡ true }
    requires steady { Steady run.plan m marks.old }
    ensures taking { (seals : List Range) → seals_fit seals ≡ true → Taking (running (at_place run (AtK row column from)) (bench_of m seals registers.old marks.old memory.now)) result.count
        (at_place run result.place) (bench_of result.machine seals registers.new marks.new memory.now) }
    ensures count_le_limit { result.count ≤ limit }
{
    let plan = run.plan;
    let terms = run_place::most_terms(run);
    let mut term = from;
    let mut machine = m;
    for step in 0..limit / 4 {
        let loaded = take_loads(run, machine, registers, marks, memory, row, column, term);
        machine = loaded.machine;
        if loaded.count < 3 {
            return Progress {
                count: 4 * step + loaded.count,
                place: loaded.place,
                machine,
            };
        }
        run_carry::multiply_written(plan, machine, registers);
        term = run_place::block_end(run.rule, plan.k, term, terms);
        if term >= plan.k {
            return Progress {
                count: 4 * step + 4,
                place: Place::AtStore { row, column },
                machine,
            };
        }
    }
    Progress {
        count: limit / 4 * 4,
        place: Place::AtK { row, column, term },
        machine,
    }
}

// The turns of steps over k from this place on, if one starts there and nothing but its sources can refuse its multiply; no more than limit.
fn sums_from(
    limit: u64,
    run: Run,
    m: Machine,
    registers: &mut [u8],
    marks: &mut [u8],
    memory: &[u8],
    place: Place,
) -> Progress
    requires marks_value { sound m registers.old marks.old ≡ true }
    requires place_value { sound_run chosen (at_place run place) ≡ true }
    ensures taking { (seals : List Range) → seals_fit seals ≡ true → Taking (running (at_place run place) (bench_of m seals registers.old marks.old memory.now)) result.count
        (at_place run result.place) (bench_of result.machine seals registers.new marks.new memory.now) }
    ensures count_le_limit { result.count ≤ limit }
{
    let none = Progress {
        count: 0,
        place,
        machine: m,
    };
    if limit < 4 {
        return none;
    }
    if let Place::AtK { row, column, term } = place {
        let plan = run.plan;
        let first = unit_settings::sized(m, Dimension::DimensionK, plan.k - term);
        if run_carry::is_ready(plan, first, marks) {
            return take_sums(limit, run, m, registers, marks, memory, row, column, term);
        }
    }
    none
}

// Turns until one is refused; no more than limit. The run and the state are judged once: they stay sound.
fn take_turns(
    limit: u64,
    run: Run,
    m: Machine,
    seals: &[u8],
    registers: &mut [u8],
    marks: &mut [u8],
    memory: &mut [u8],
) -> Progress
    requires marks_value { sound m registers.old marks.old ≡ true }
    requires run_value { sound_run chosen run ≡ true }
    requires seals_value { seals_fit (seals_in seals.now) ≡ true }
    ensures { taken_as (record { count = result.count; run = at_place run result.place; machine = result.machine }) (seals_in seals.now) registers.new marks.new memory.new
        ≡ turns chosen (running run (bench_of m (seals_in seals.now) registers.old marks.old memory.old)) limit }
{
    let mut place = run.place;
    let mut machine = m;
    let mut count = 0;
    // A while: a turn of it takes as many turns as the steps over k that follow allow.
    while count < limit {
        let current = run_place::at_place(run, place);
        let moved = match take_turn(current, machine, seals, registers, marks, memory) {
            Ok(moved) => moved,
            Err(_) => {
                return Progress {
                    count,
                    place,
                    machine,
                };
            }
        };
        count += 1;
        let next = moved.place;
        let after = moved.machine;
        let sums = sums_from(limit - count, run, after, registers, marks, memory, next);
        place = sums.place;
        machine = sums.machine;
        count += sums.count;
    }
    Progress {
        count,
        place,
        machine,
    }
}

// One turn: a step is asked for and, if one is handed out, carried out.
pub fn turn(
    run: Run,
    m: Machine,
    seals: &[u8],
    registers: &mut [u8],
    marks: &mut [u8],
    memory: &mut [u8],
) -> Result<Turned, Refusal>
    ensures { turned_as run m result (seals_in seals.now) registers.new marks.new memory.new
        ≡ turn_outcome chosen (running run (bench_of m (seals_in seals.now) registers.old marks.old memory.old)) }
{
    if !unit_faults::is_sound(m, seals, registers, marks) {
        return Err(Refusal::BadArguments);
    }
    if !run_place::is_sound_run(run) {
        return Err(Refusal::BadArguments);
    }
    let moved = take_turn(run, m, seals, registers, marks, memory)?;
    Ok(Turned {
        run: run_place::at_place(run, moved.place),
        machine: moved.machine,
    })
}

// Up to limit turns. They leave what as many calls of `turn` leave; the state is validated once.
pub fn turns(
    limit: u64,
    run: Run,
    m: Machine,
    seals: &[u8],
    registers: &mut [u8],
    marks: &mut [u8],
    memory: &mut [u8],
) -> Taken
    ensures { taken_as result (seals_in seals.now) registers.new marks.new memory.new
        ≡ turns chosen (running run (bench_of m (seals_in seals.now) registers.old marks.old memory.old)) limit }
{
    if !unit_faults::is_sound(m, seals, registers, marks) {
        return Taken {
            count: 0,
            run,
            machine: m,
        };
    }
    if !run_place::is_sound_run(run) {
        return Taken {
            count: 0,
            run,
            machine: m,
        };
    }
    let progress = take_turns(limit, run, m, seals, registers, marks, memory);
    Taken {
        count: progress.count,
        run: run_place::at_place(run, progress.place),
        machine: progress.machine,
    }
}
