// The numbers of a plan: whether they are permitted, its elements, where its matrices and their blocks lie, and whether a place lies in them.
#![tactic(auto)]

ghost use Rattle.std.specs.Prelude.{◌≡◌, ◌*◌, ◌%◌, ◌^◌, ◌≤◌, true, [], ◌∷◌, nat_lt};
ghost use Rattle.numbers.specs.Bounds.{most_elen};
ghost use Rattle.machine.specs.Tests.{every, is_in};
ghost use Rattle.run.specs.Plan.{narrow, wide, msew, type_of, form_of, a_row, a_column};
ghost use Rattle.run.specs.Start.{format, kind_fit, planned};
ghost use Rattle.run.specs.Encoding.{log, address_in, load_code};
ghost use Rattle.run_plan.specs.Parts.{in_matrices};

use machine::Form;
use run::{Layout, Place, Plan};

// ---- numbers that are permitted

fn is_sew(x: u64) -> bool
    ensures { result ≡ is_in x (8 ∷ 16 ∷ 32 ∷ 64 ∷ []) }
{
    matches!(x, 8 | 16 | 32 | 64)
}

fn is_factor(x: u64) -> bool
    ensures { result ≡ is_in x (1 ∷ 2 ∷ 4 ∷ []) }
{
    matches!(x, 1 | 2 | 4)
}

// Whether a plan may have elements of sew bits, and of factor times as many in C, on a machine of this ELEN.
#[tactic(auto, unfolding(run::specs::Start::format))]
pub fn is_format(elen: u64, sew: u64, factor: u64) -> bool
    ensures { result ≡ format elen sew factor }
{
    is_sew(sew) && is_factor(factor) && factor * sew <= elen
}

// Whether the kind is 0 or 1, or 2 with SEW 32 and factor 1.
#[tactic(auto, unfolding(run::specs::Start::kind_fit))]
fn is_kind_fit(plan: Plan) -> bool
    ensures { result ≡ kind_fit plan }
{
    if plan.kind != 2 {
        return plan.kind <= 1;
    }
    plan.sew == 32 && plan.factor == 1
}

// Whether the numbers of a plan are permitted on a machine of this ELEN.
#[tactic(auto, unfolding(run::specs::Start::planned))]
pub fn is_planned(elen: u64, plan: Plan) -> bool
    ensures { result ≡ planned elen plan }
{
    is_format(elen, plan.sew, plan.factor)
        && plan.m <= 1024
        && plan.k <= 1024
        && plan.n <= 1024
        && is_kind_fit(plan)
}

// ---- elements

// The logarithm of a permitted factor.
pub fn factor_code(factor: u64) -> u32
    ensures value { result ≡ log factor }
    ensures upper_bound { result ≤ 2 }
{
    match factor {
        4 => 2,
        2 => 1,
        _ => 0,
    }
}

// The plan's msew.
#[tactic(auto, unfolding(run::specs::Plan::msew))]
pub fn width_code(plan: Plan) -> u32
    ensures value { result ≡ msew plan }
    ensures upper_bound { result ≤ 3 }
{
    match plan.sew {
        64 => 3,
        32 => 2,
        16 => 1,
        _ => 0,
    }
}

// The mtype of the run.
#[tactic(auto, unfolding(run::specs::Plan::type_of))]
pub fn type_of(plan: Plan) -> u64
    ensures value { result ≡ type_of plan }
    ensures upper_bound { result ≤ 11 }
{
    let code = width_code(plan) as u64;
    if plan.factor == 4 {
        return code + 8;
    }
    code
}

// The bytes of an element of A and B.
pub fn narrow_bytes(plan: Plan) -> u64
    requires { planned most_elen plan ≡ true }
    ensures value { result ≡ narrow plan }
    ensures upper_bound { result ≤ 8 }
{
    plan.sew / 8
}

// The bytes of an element of C.
pub fn wide_bytes(plan: Plan) -> u64
    requires { planned most_elen plan ≡ true }
    ensures value { result ≡ wide plan }
    ensures upper_bound { result ≤ 8 }
{
    plan.factor * narrow_bytes(plan)
}

// ---- where A is kept

// The form of the loads of A.
pub fn form_of(plan: Plan) -> Form
    ensures { result ≡ form_of plan }
{
    if plan.kind == 1 {
        return Form::Transposed;
    }
    Form::Plain
}

// The code of the loads of A.
pub fn load_code(plan: Plan) -> u32
    ensures value { result ≡ load_code (form_of plan) }
    ensures upper_bound { result ≤ 10 }
{
    match form_of(plan) {
        Form::Plain => 2,
        Form::Transposed => 10,
    }
}

// The row in memory of the element of A in this row and term, and how many elements it lies into it.
pub fn a_row(plan: Plan, row: u64, term: u64) -> u64
    ensures { result ≡ a_row plan row term }
{
    match form_of(plan) {
        Form::Plain => row,
        Form::Transposed => term,
    }
}

pub fn a_column(plan: Plan, row: u64, term: u64) -> u64
    ensures { result ≡ a_column plan row term }
{
    match form_of(plan) {
        Form::Plain => term,
        Form::Transposed => row,
    }
}

// ---- addresses

// The product of a row and a stride modulo 2^64, by the halves of the stride.
fn row_times(row: u64, stride: u64) -> u64
    requires { row ≤ 1024 }
    ensures { result ≡ (row * stride) % 2 ^ 64 }
{
    let high = row * (stride / 0x1_0000_0000);
    let low = row * (stride % 0x1_0000_0000);
    (high % 0x1_0000_0000 * 0x1_0000_0000).wrapping_add(low)
}

// The address so many bytes into a row of a matrix, modulo 2^64.
pub fn start_of(layout: Layout, row: u64, bytes: u64) -> u64
    requires { row ≤ 1024 }
    ensures { result ≡ address_in layout row bytes }
{
    let start = layout.address.wrapping_add(row_times(row, layout.stride));
    start.wrapping_add(bytes)
}

// The address of the element, of so many bytes, in this row and column of a matrix, modulo 2^64.
pub fn element_address(layout: Layout, row: u64, column: u64, bytes: u64) -> u64
    requires { (row ≤ 1024) × ((column ≤ 1024) × (bytes ≤ 8)) }
    ensures { result ≡ address_in layout row (column * bytes) }
{
    start_of(layout, row, column * bytes)
}

// ---- places in the matrices

fn in_product(plan: Plan, row: u64, column: u64) -> bool
    ensures { result ≡ every (nat_lt row plan.m ∷ nat_lt column plan.n ∷ []) }
{
    row < plan.m && column < plan.n
}

fn in_sums(plan: Plan, row: u64, column: u64, term: u64) -> bool
    ensures { result ≡ every (nat_lt row plan.m ∷ nat_lt column plan.n ∷ nat_lt term plan.k ∷ []) }
{
    row < plan.m && column < plan.n && term < plan.k
}

// Whether a place lies in the matrices.
pub fn is_placed(plan: Plan, place: Place) -> bool
    ensures { result ≡ in_matrices plan place }
{
    match place {
        Place::AtType => true,
        Place::AtM { row } => row < plan.m,
        Place::AtN { row, column }
        | Place::AtClear { row, column }
        | Place::AtStore { row, column } => in_product(plan, row, column),
        Place::AtK { row, column, term }
        | Place::AtA { row, column, term }
        | Place::AtB { row, column, term }
        | Place::AtMultiply { row, column, term } => in_sums(plan, row, column, term),
        Place::AtEnd => true,
    }
}
