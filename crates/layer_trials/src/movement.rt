// Series at their limits and past them.
ghost use Rattle.std.specs.Prelude.{◌<◌};

use crate::answers::{body_of, head_of, told};
use books::Book;
use refusals::{Item, Section, Told};
use series::{Movement, Series, check_series};

// Head 9; it requires 7 and bars 15.
pub const ROW: [u8; 32] =
    *b"\x00\x09\x01\x01\x00\x07\x00\x0f\x00\x00\x00\x00\x00\x00\x00\x00\x00\x00\x00\x00\x00\x00\x00\x00\x00\x00\x00\x00\x00\x00\x00\x00";

// What is told where a series is refused by this number, at this spot.
fn refusal(number: u8, spot: usize) -> Told {
    Item::of(Section::Series, 0).refusal(number, spot)
}

// What is told of the series of the row with one byte changed, and how many rules it has.
fn tried(at: usize, byte: u8, width: u8, count: u8, moving: u16) -> (Option<Told>, usize)
    requires { at < 32 }
{
    let mut row = ROW;
    row[at] = byte;
    let movement = Movement {
        width,
        count,
        moving,
    };
    let told = told(check_series(&row, movement));
    (told, Series::new(&row, movement).len())
}

// A series that passes, with so many rules.
fn passes(rules: usize) -> (Option<Told>, usize) {
    (None, rules)
}

// A series that is refused has none.
fn refused(number: u8, spot: usize) -> (Option<Told>, usize) {
    (Some(refusal(number, spot)), 0)
}

#[test]
fn tried_series(rt: HostRuntime) {
    // nothing moves
    assert_eq!(rt; tried(31, 0, 127, 128, 0), passes(128));
    assert_eq!(rt; tried(31, 0, 128, 1, 0), refused(11, 0));
    assert_eq!(rt; tried(31, 0, 1, 129, 0), refused(11, 0));
    assert_eq!(rt; tried(31, 0, 255, 255, 65535), refused(11, 0));
    // the required mark reaches 1,023, and passes it
    assert_eq!(rt; tried(31, 0, 1, 128, 2), passes(128));
    assert_eq!(rt; tried(31, 0, 127, 2, 2), passes(2));
    assert_eq!(rt; tried(31, 0, 127, 3, 2), refused(11, 0));
    // the barred mark does, and the head stays just below
    assert_eq!(rt; tried(31, 0, 1, 127, 7), passes(127));
    assert_eq!(rt; tried(31, 0, 1, 128, 4), refused(11, 0));
    assert_eq!(rt; tried(31, 0, 1, 128, 1), refused(11, 0));
    // without a rule no mark is too high
    assert_eq!(rt; tried(31, 0, 127, 0, 7), passes(0));
    // positions that the row does not use
    assert_eq!(rt; tried(31, 0, 1, 1, 8), refused(11, 0));
    assert_eq!(rt; tried(31, 0, 0, 0, 8), refused(11, 0));
    assert_eq!(rt; tried(31, 0, 1, 1, 0x8000), refused(11, 0));
    // the row
    assert_eq!(rt; tried(0, 4, 1, 1, 0), refused(4, 0));
    assert_eq!(rt; tried(1, 8, 1, 1, 0), refused(5, 0));
    assert_eq!(rt; tried(1, 15, 1, 1, 0), refused(5, 0));
    assert_eq!(rt; tried(2, 14, 1, 1, 0), refused(3, 2));
    assert_eq!(rt; tried(3, 14, 1, 1, 0), refused(3, 2));
    assert_eq!(rt; tried(4, 4, 1, 1, 0), refused(4, 4));
    assert_eq!(rt; tried(6, 4, 1, 1, 0), refused(4, 6));
    assert_eq!(rt; tried(8, 1, 1, 1, 0), refused(6, 8));
    assert_eq!(rt; tried(31, 1, 128, 1, 0), refused(6, 31));
}

#[test]
fn rows_of_other_lengths(rt: HostRuntime) {
    let one = Movement {
        width: 1,
        count: 1,
        moving: 0,
    };
    for n in 0..32 {
        assert_eq!(rt; told(check_series(&ROW[0..n], one)), Some(refusal(1, n)));
    }
    let wide = Movement { width: 128, ..one };
    assert_eq!(rt; told(check_series(&[0; 33], wide)), Some(refusal(9, 32)));
}

// The marks of a rule.
struct Marks {
    head: u16,
    required: u16,
    barred: u16,
}

const MOVED: [Marks; 3] = [
    Marks {
        head: 9,
        required: 7,
        barred: 15,
    },
    Marks {
        head: 25,
        required: 7,
        barred: 31,
    },
    Marks {
        head: 41,
        required: 7,
        barred: 47,
    },
];

#[test]
fn marks_of_a_series(rt: HostRuntime) {
    let series = Series::new(
        &ROW,
        Movement {
            width: 2,
            count: 3,
            moving: 5,
        },
    );
    for (n, marks) in MOVED.iter().enumerate() {
        assert_eq!(rt; head_of(&series, n), Some(marks.head));
        assert_eq!(rt; body_of(&series, n, 0), Some(marks.required));
        assert_eq!(rt; body_of(&series, n, 1), Some(marks.barred));
        assert_eq!(rt; body_of(&series, n, 2), None);
    }
    assert!(rt; series.counts(2) == Some((1, 1)));
    assert!(rt; series.counts(3) == None);
    assert_eq!(rt; head_of(&series, 3), None);
    assert_eq!(rt; body_of(&series, 3, 0), None);
}
