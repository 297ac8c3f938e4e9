// The tests of a start on memory: that the matrices lie in it, and that C lies apart from the rest.
ghost use Rattle.std.specs.Prelude.{◌≡◌, true, ◌*◌, ◌≤◌};
ghost use Rattle.numbers.specs.Bounds.{most_elen};
ghost use Rattle.machine.specs.Geometry.{sealed};
ghost use Rattle.machine.specs.Faults.{seals_fit};
ghost use Rattle.unit_ranges.specs.Ranges.{seals_in};
ghost use Rattle.run.specs.Plan.{narrow, wide};
ghost use Rattle.run.specs.Start.{planned, lying, separate};

use run::Plan;
use run_overlap::rows_apart;
use run_plan::{a_column, a_row};
use unit_address::{rows_distinct, rows_inside};
use unit_ranges::several_missed;

// The bytes of a row of so many elements of A or B.
fn narrow_row(plan: Plan, elements: u64) -> usize
    requires plan_value { planned most_elen plan ≡ true }
    requires elements_bound { elements ≤ 1024 }
    ensures { (result ≡ elements * narrow plan) × (result ≤ 8192) }
{
    elements as usize * (plan.sew / 8) as usize
}

// The bytes of a row of C.
fn wide_row(plan: Plan) -> usize
    requires { planned most_elen plan ≡ true }
    ensures { (result ≡ plan.n * wide plan) × (result ≤ 8192) }
{
    plan.n as usize * (plan.factor * (plan.sew / 8)) as usize
}

// Whether every element of the three matrices lies in memory.
pub fn is_lying(plan: Plan, memory: &[u8]) -> bool
    requires { planned most_elen plan ≡ true }
    ensures { result ≡ lying plan memory.now }
{
    let len = memory.len();
    let a = plan.a;
    let rows = a_row(plan, plan.m, plan.k);
    let columns = a_column(plan, plan.m, plan.k);
    if !rows_inside(
        len,
        a.address as usize,
        a.stride,
        rows as usize,
        narrow_row(plan, columns),
    ) {
        return false;
    }
    let b = plan.b;
    let k = plan.k as usize;
    if !rows_inside(
        len,
        b.address as usize,
        b.stride,
        k,
        narrow_row(plan, plan.n),
    ) {
        return false;
    }
    let c = plan.c;
    rows_inside(
        len,
        c.address as usize,
        c.stride,
        plan.m as usize,
        wide_row(plan),
    )
}

// Whether no byte of C lies in two of its rows, in a row of A or B, or in a sealed range.
pub fn is_separate(plan: Plan, seals: &[u8], memory: &[u8]) -> bool
    requires plan_value { planned most_elen plan ≡ true }
    requires memory_value { lying plan memory.now ≡ true }
    requires seals_value { seals_fit (seals_in seals.now) ≡ true }
    ensures { result ≡ separate (sealed (seals_in seals.now)) plan }
{
    let len = memory.len();
    let c = plan.c;
    let at = c.address as usize;
    let rows = plan.m as usize;
    let bytes = wide_row(plan);
    if !rows_distinct(len, at, c.stride, rows, bytes) {
        return false;
    }
    let a = plan.a;
    let lines = a_row(plan, plan.m, plan.k);
    let elements = a_column(plan, plan.m, plan.k);
    if !rows_apart(
        len,
        a.address as usize,
        a.stride,
        lines as usize,
        narrow_row(plan, elements),
        at,
        c.stride,
        rows,
        bytes,
    ) {
        return false;
    }
    let b = plan.b;
    if !rows_apart(
        len,
        b.address as usize,
        b.stride,
        plan.k as usize,
        narrow_row(plan, plan.n),
        at,
        c.stride,
        rows,
        bytes,
    ) {
        return false;
    }
    several_missed(len, seals, at, c.stride, rows, bytes)
}
