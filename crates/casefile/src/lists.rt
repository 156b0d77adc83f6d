// The marks of a step of a case: those that are said, and those that are proposed.
ghost use Rattle.std.specs.Prelude.{◌≡◌, ◌≤◌, length};

mod methods;

// Up to 1,024 marks, at the front.
// Kept: an array with a count, since a vector of fixed room writes blanks where it is made and where it is emptied, and
// short lists took twice the time.
#[derive(Drop)]
pub(crate) struct MarkList {
    marks: [u16; 1024],
    count: usize,
    ghost room: { length marks ≡ 1024 },
    ghost within: { count ≤ 1024 },
}

#[derive(Drop)]
pub struct StepLists {
    said: MarkList,
    proposed: MarkList,
}
