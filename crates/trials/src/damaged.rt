// Files that are cut short or damaged, and what is told of them.
ghost use Rattle.std.specs.Prelude.{◌<◌};

use crate::files::{BOOK, CASE};
use crate::telling::{refused, refused_in, told};
use bookcheck::check_book;
use refusals::{Section, Told};
use run::run_files;

// What is told of the book with one byte changed.
fn told_of_damage(at: usize, byte: u8) -> Option<Told>
    requires { at < 190 }
{
    let mut bytes = BOOK;
    bytes[at] = byte;
    told(check_book(&bytes))
}

// What is told of a file names its section, and each section has a number.
#[test]
fn sections_in_order(rt: HostRuntime) {
    assert_eq!(rt; Section::Rules.number(), 1);
    assert_eq!(rt; Section::Names.number(), 2);
    assert_eq!(rt; Section::End.number(), 3);
    assert_eq!(rt; Section::Case.number(), 4);
    assert_eq!(rt; Section::Series.number(), 5);
}

#[test]
fn damaged_books(rt: HostRuntime) {
    assert_eq!(rt; told(check_book(&BOOK)), None);
    let rules = Section::Rules;
    let names = Section::Names;
    let end = Section::End;
    // the count of rules
    assert_eq!(rt; told_of_damage(0, 2), refused_in(rules, 0, 2, 0));
    assert_eq!(rt; told_of_damage(1, 6), refused_in(rules, 5, 1, 190));
    // rows: the head, the counts, body marks, unused bytes
    assert_eq!(rt; told_of_damage(2, 4), refused_in(rules, 0, 4, 2));
    assert_eq!(rt; told_of_damage(3, 8), refused_in(rules, 0, 5, 2));
    assert_eq!(rt; told_of_damage(3, 15), refused_in(rules, 0, 5, 2));
    assert_eq!(rt; told_of_damage(4, 15), refused_in(rules, 0, 3, 4));
    assert_eq!(rt; told_of_damage(5, 14), refused_in(rules, 0, 3, 4));
    assert_eq!(rt; told_of_damage(4, 14), None);
    assert_eq!(rt; told_of_damage(6, 4), refused_in(rules, 0, 4, 6));
    assert_eq!(rt; told_of_damage(4, 0), refused_in(rules, 0, 6, 7));
    assert_eq!(rt; told_of_damage(8, 1), refused_in(rules, 0, 6, 8));
    assert_eq!(rt; told_of_damage(33, 1), refused_in(rules, 0, 6, 33));
    assert_eq!(rt; told_of_damage(34, 4), refused_in(rules, 1, 4, 34));
    // the count of names
    assert_eq!(rt; told_of_damage(162, 129), refused_in(names, 0, 2, 162));
    assert_eq!(rt; told_of_damage(162, 6), refused_in(names, 5, 1, 190));
    assert_eq!(rt; told_of_damage(162, 4), refused_in(end, 0, 9, 183));
    // names: the length, the bytes
    assert_eq!(rt; told_of_damage(163, 0), refused_in(names, 0, 7, 163));
    assert_eq!(rt; told_of_damage(163, 33), refused_in(names, 0, 7, 163));
    assert_eq!(rt; told_of_damage(183, 32), refused_in(names, 4, 1, 190));
    assert_eq!(rt; told_of_damage(164, 0x20), refused_in(names, 0, 7, 163));
    assert_eq!(rt; told_of_damage(164, 0x7f), refused_in(names, 0, 7, 163));
    assert_eq!(rt; told_of_damage(164, 0x23), refused_in(names, 0, 7, 163));
    assert_eq!(rt; told_of_damage(164, 0x7e), None);
    assert_eq!(rt; told_of_damage(164, 0x21), None);
}

#[test]
fn cut_books(rt: HostRuntime) {
    for n in 0..BOOK.len() {
        let told = told(check_book(&BOOK[..n]));
        assert_eq!(rt; told.map(|told| (told.number, told.spot)), Some((1, n)));
    }
}

// A name that stood earlier, and names that are not enough: for a head, and for a body mark.
#[test]
fn names_that_do_not_do(rt: HostRuntime) {
    let mut again = BOOK;
    again[168..171].copy_from_slice(b"rec");
    assert_eq!(rt;
        told(check_book(&again)),
        refused_in(Section::Names, 1, 8, 167)
    );
    let mut few = BOOK;
    few[162] = 4;
    assert_eq!(rt;
        told(check_book(&few[..183])),
        refused_in(Section::Rules, 3, 10, 98)
    );
    few[99] = 26;
    assert_eq!(rt;
        told(check_book(&few[..183])),
        refused_in(Section::Rules, 4, 10, 134)
    );
}

// What is told of a run, and how many steps stand.
fn told_of_run(book: &[u8], case: &[u8]) -> (Option<Told>, usize) {
    let (review, outcome) = run_files(book, case);
    (told(outcome), review.steps())
}

#[test]
fn cut_cases(rt: HostRuntime) {
    for n in 0..CASE.len() {
        let (told, _) = told_of_run(&BOOK, &CASE[..n]);
        assert_eq!(rt; told.map(|told| (told.number, told.spot)), Some((1, n)));
    }
    assert_eq!(rt; told_of_run(&BOOK, &CASE), (None, 4));
}

// What is told of the case with one byte changed, and how many steps stand.
fn told_of_slip(at: usize, byte: u8) -> (Option<Told>, usize)
    requires { at < 67 }
{
    let mut bytes = CASE;
    bytes[at] = byte;
    told_of_run(&BOOK, &bytes)
}

#[test]
fn damaged_cases(rt: HostRuntime) {
    let case = Section::Case;
    // the count of steps
    assert_eq!(rt; told_of_slip(0, 65), (refused_in(case, 0, 2, 0), 0));
    assert_eq!(rt; told_of_slip(0, 5), (refused_in(case, 4, 1, 67), 4));
    assert_eq!(rt; told_of_slip(0, 3), (refused_in(Section::End, 0, 9, 45), 3));
    // the count of a list
    assert_eq!(rt; told_of_slip(1, 5), (refused_in(case, 0, 2, 1), 0));
    assert_eq!(rt; told_of_slip(1, 4), (refused_in(case, 0, 2, 1), 0));
    assert_eq!(rt; told_of_slip(9, 4), (refused_in(case, 1, 2, 9), 1));
    // a mark that may not be said
    assert_eq!(rt; told_of_slip(4, 9), (refused(24, 0), 0));
    assert_eq!(rt; told_of_slip(12, 9), (refused(24, 0), 1));
    // a case in place of the book
    let (told, steps) = told_of_run(&CASE, &CASE);
    assert_eq!(rt;
        told.and_then(|told| told.item).map(|item| item.section),
        Some(Section::Rules)
    );
    assert_eq!(rt; steps, 0);
}
