// The scan of an image: one reader is set on it and moves through all of it, field by field and run by run.
ghost use Rattle.std.specs.Prelude.{◌≡◌, ◌-◌, ◌<◌};
ghost use Rattle.image_header.specs.Fields.{FieldsOk, Ready, fields_all, rested};
ghost use Rattle.image_check.specs.Parts.{RunsOk, runs_all, runs_behind, scan_in};

use crate::runs::{Runs, run_from};
use image_header::{ALL_READ, Fields, field_from, first_field, power, rested};
use numbers_coded::Reader;

// What is found in an image: its header, and its runs.
#[derive(Clone, Copy)]
pub struct Scanned {
    pub fields: Fields,
    pub runs: Runs,
}

// Reads the fields that are left; the reader is then behind them, or at the fault.
fn read_fields<'s, 'a>(r: &'s mut Reader<'a>, first: Fields) -> Fields
    requires { Ready first × (r.old.at ≡ first.at) }
    ensures { (result ≡ fields_all r.old.image.now (12 - first.next) first)
        × (r.new.image ≡ r.old.image) × (r.new.at ≡ result.at) }
{
    // A while: a loop that counts to 12 is not unrolled, and a header takes 1.4 times as long.
    let mut t = first;
    while t.next < 12 {
        t = field_from(r.image, r.at, t);
        r.at = t.at;
    }
    t
}

// Reads the runs that are left; the reader is then behind those that are there whole.
fn read_runs<'s, 'a>(r: &'s mut Reader<'a>, first: Runs) -> Runs
    requires { (0 < first.left → RunsOk r.old.image.now first.at first) × (r.old.at ≡ first.at) }
    ensures { (result ≡ runs_all r.old.image.now first.left first)
        × (r.new.image ≡ r.old.image) × (r.new.at ≡ result.at) }
{
    // A while: behind a fault none is left, so that how many turns it takes shows as it goes.
    let mut t = first;
    while 0 < t.left {
        t = run_from(r.image, r.at, t);
        r.at = t.at;
    }
    t
}

// Before the first run: none is left where the header is at fault.
fn runs_behind(f: Fields) -> Runs
    requires { FieldsOk f }
    ensures { result ≡ runs_behind f }
{
    if f.next != ALL_READ {
        return Runs {
            left: 0,
            kept: 0,
            room: 0,
            at: f.at,
            place: f.at,
        };
    }
    Runs {
        left: f.runs,
        kept: 0,
        room: 2 * power(f.mlen),
        at: f.at,
        place: f.at,
    }
}

// Both together. No row is left.
fn found(fields: Fields, runs: Runs) -> Scanned
    ensures { result ≡ record { fields = rested fields; runs = runs } }
{
    Scanned {
        fields: rested(fields),
        runs,
    }
}

// What is found in an image.
pub fn scan(image: &[u8]) -> Scanned
    ensures { result ≡ scan_in image.now }
{
    let mut r = Reader::new(image);
    let first = first_field();
    let fields = read_fields(&mut r, first);
    let behind = runs_behind(fields);
    let runs = read_runs(&mut r, behind);
    found(fields, runs)
}
