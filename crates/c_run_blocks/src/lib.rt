// A run and a step as a host in C passes them, in blocks of bytes. What lies where is defined in specs/.
#![tactic(auto)]

ghost use Rattle.std.specs.Prelude.{◌≡◌, [], ◌∷◌, ◌+◌, ◌≤◌, length};
ghost use Rattle.numbers.specs.Tile.{put_le};
ghost use Rattle.machine.specs.Tests.{every};
ghost use Rattle.c_blocks.specs.Blocks.{put_numbers};
ghost use Rattle.c_run_blocks.specs.RunBlocks.{spot, spot_of, place_of, layout_of, plan_of, run_bytes, spot_in, run_of, same_spot, run_fit, plan_numbers, put_run, RunKept, step_bytes, put_handed};

use run::{Handed, Layout, Place, Plan, Run};
use unit_element::Element;

// The bytes of a run's block.
pub const RUN_BYTES: usize = 160;

// ---- a run out of its block

// The four numbers of a place.
#[derive(Clone, Copy)]
pub struct Spot {
    kind: u64,
    row: u64,
    column: u64,
    term: u64,
}

// The place that four numbers stand for.
fn place_of(spot: Spot) -> Place
    ensures { result ≡ place_of spot }
{
    let Spot {
        kind,
        row,
        column,
        term,
    } = spot;
    match kind {
        0 => Place::AtType,
        1 => Place::AtM { row },
        2 => Place::AtN { row, column },
        3 => Place::AtClear { row, column },
        4 => Place::AtK { row, column, term },
        5 => Place::AtA { row, column, term },
        6 => Place::AtB { row, column, term },
        7 => Place::AtMultiply { row, column, term },
        8 => Place::AtStore { row, column },
        _ => Place::AtEnd,
    }
}

fn spot_at(kind: u64, row: u64, column: u64, term: u64) -> Spot
    ensures { result ≡ spot kind row column term }
{
    Spot {
        kind,
        row,
        column,
        term,
    }
}

// The four numbers of a place, 0 for those that it does not have.
fn spot_of(place: Place) -> Spot
    ensures { result ≡ spot_of place }
{
    match place {
        Place::AtType => spot_at(0, 0, 0, 0),
        Place::AtM { row } => spot_at(1, row, 0, 0),
        Place::AtN { row, column } => spot_at(2, row, column, 0),
        Place::AtClear { row, column } => spot_at(3, row, column, 0),
        Place::AtK { row, column, term } => spot_at(4, row, column, term),
        Place::AtA { row, column, term } => spot_at(5, row, column, term),
        Place::AtB { row, column, term } => spot_at(6, row, column, term),
        Place::AtMultiply { row, column, term } => spot_at(7, row, column, term),
        Place::AtStore { row, column } => spot_at(8, row, column, 0),
        Place::AtEnd => spot_at(9, 0, 0, 0),
    }
}

// Where a matrix lies, out of the sixteen bytes from `at` on.
fn layout_of(block: &[u8], at: usize) -> Layout
    requires { at + 16 ≤ length block.now }
    ensures { result ≡ layout_of block.now at }
{
    Layout {
        address: u64::read(block, at),
        stride: u64::read(block, at + 8),
    }
}

fn plan_of(block: &[u8]) -> Plan
    requires { length block.now ≡ run_bytes }
    ensures { result ≡ plan_of block.now }
{
    let a = layout_of(block, 40);
    let b = layout_of(block, 56);
    let c = layout_of(block, 72);
    Plan {
        kind: u64::read(block, 136),
        sew: u64::read(block, 0),
        factor: u64::read(block, 8),
        m: u64::read(block, 16),
        k: u64::read(block, 24),
        n: u64::read(block, 32),
        a,
        b,
        c,
    }
}

// The four numbers of a run's place out of its block.
fn spot_in(block: &[u8]) -> Spot
    requires { length block.now ≡ run_bytes }
    ensures { result ≡ spot_in block.now }
{
    Spot {
        kind: u64::read(block, 104),
        row: u64::read(block, 112),
        column: u64::read(block, 120),
        term: u64::read(block, 128),
    }
}

// A run out of its block.
pub fn run_of(block: &[u8]) -> Run
    requires { length block.now ≡ run_bytes }
    ensures { result ≡ run_of block.now }
{
    let plan = plan_of(block);
    let spot = spot_in(block);
    let place = place_of(spot);
    Run {
        plan,
        rlen: u64::read(block, 88),
        mlen: u64::read(block, 96),
        rule: u64::read(block, 144),
        elen: u64::read(block, 152),
        place,
    }
}

fn same_spot(s: Spot, t: Spot) -> bool
    ensures { result ≡ every (same_spot s t) }
{
    s.kind == t.kind && s.row == t.row && s.column == t.column && s.term == t.term
}

// Whether a block is one that a run can lie in.
#[tactic(auto, unfolding(crate::specs::RunBlocks::run_fit))]
pub fn is_fit(block: &[u8]) -> bool
    ensures { result ≡ run_fit block.now }
{
    if block.len() != RUN_BYTES {
        return false;
    }
    let held = spot_in(block);
    same_spot(held, spot_of(place_of(held)))
}

// ---- a run and a step into their blocks

fn put_layout(block: &mut [u8], at: usize, layout: Layout)
    requires { at + 16 ≤ length block.old }
    ensures { block.new ≡ put_le (at + 8) 8 layout.stride (put_le at 8 layout.address block.old) }
{
    u64::write(block, at, layout.address);
    u64::write(block, at + 8, layout.stride);
}

// The numbers of a plan before its layouts.
fn put_sizes(block: &mut [u8], plan: Plan)
    requires { length block.old ≡ run_bytes }
    ensures { block.new ≡ put_numbers (plan.sew ∷ plan.factor ∷ plan.m ∷ plan.k ∷ plan.n ∷ []) block.old }
{
    u64::write(block, 0, plan.sew);
    u64::write(block, 8, plan.factor);
    u64::write(block, 16, plan.m);
    u64::write(block, 24, plan.k);
    u64::write(block, 32, plan.n);
}

fn put_plan(block: &mut [u8], plan: Plan)
    requires { length block.old ≡ run_bytes }
    ensures { block.new ≡ put_numbers (plan_numbers plan) block.old }
{
    put_sizes(block, plan);
    let a = plan.a;
    put_layout(block, 40, a);
    let b = plan.b;
    put_layout(block, 56, b);
    let c = plan.c;
    put_layout(block, 72, c);
}

fn put_spot(block: &mut [u8], spot: Spot)
    requires { length block.old ≡ run_bytes }
    ensures { block.new
        ≡ put_le 128 8 spot.term (put_le 120 8 spot.column (put_le 112 8 spot.row (put_le 104 8 spot.kind block.old))) }
{
    u64::write(block, 104, spot.kind);
    u64::write(block, 112, spot.row);
    u64::write(block, 120, spot.column);
    u64::write(block, 128, spot.term);
}

// A run into its block.
pub fn put_run(block: &mut [u8], run: Run)
    requires { length block.old ≡ run_bytes }
    ensures { block.new ≡ put_run run block.old }
{
    let plan = run.plan;
    put_plan(block, plan);
    u64::write(block, 88, run.rlen);
    u64::write(block, 96, run.mlen);
    let place = run.place;
    let spot = spot_of(place);
    put_spot(block, spot);
    u64::write(block, 136, plan.kind);
    u64::write(block, 144, run.rule);
    u64::write(block, 152, run.elen);
}

// The place of a run into its block, which has the run's other numbers already.
pub fn put_place(block: &mut [u8], run: Run)
    requires block_len { length block.old ≡ run_bytes }
    requires run_kept { RunKept run (run_of block.old) }
    ensures { block.new ≡ put_run run block.old }
{
    let place = run.place;
    let spot = spot_of(place);
    put_spot(block, spot);
}

// A step into its block.
pub fn put_handed(block: &mut [u8], handed: Handed)
    requires { length block.old ≡ step_bytes }
    ensures { block.new ≡ put_handed handed block.old }
{
    u64::write(block, 0, handed.word as u64);
    u64::write(block, 8, handed.address);
    u64::write(block, 16, handed.stride);
}
