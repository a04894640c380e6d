// Lists of cases: a world for each record.
ghost use Rattle.std.specs.Prelude.{◌≤◌, length};

// The most cases that a list can have.
pub const MAX_CASES: usize = 4096;

// A list of 1 to 4,096 records.
#[derive(Drop)]
pub struct CaseList<'a, R> {
    cases: &'a [R],
    ghost some: { 1 ≤ length cases.now },
    ghost few: { length cases.now ≤ 4096 },
}

// A list of cases as a model.
#[derive(Drop)]
pub struct Cases<'a, R> {
    list: CaseList<'a, R>,
}

pub mod answers;
