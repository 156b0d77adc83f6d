// Joint books and suspensions, and both over each other.
use crate::answers::{head_of, told};
use crate::movement::ROW;
use books::Book;
use joint::{Joint, check_joint};
use refusals::Told;
use sameness::same_rules;
use series::{Movement, Series};
use std::process::Abort;
use suspension::{Suspension, check_suspension};

// So many rules from the row: from each to the next the head goes up an instance.
fn heads(row: &[u8], count: u8) -> Series<'_> {
    let movement = Movement {
        width: 1,
        count,
        moving: 1,
    };
    Series::new(row, movement)
}

// A book of 512 rules twice, and one rule more.
fn check_limit<B: Book, S: Book>(rt: &impl Abort, half: &B, one: &S) {
    assert_eq!(rt; told(check_joint(half, half)), None);
    let full = Joint::new(half, half);
    assert_eq!(rt; full.len(), 1024);
    assert_eq!(rt; head_of(&full, 126), Some(1017));
    assert_eq!(rt; head_of(&full, 127), Some(9));
    assert_eq!(rt; head_of(&full, 1022), Some(1017));
    assert_eq!(rt; head_of(&full, 1024), None);
    assert_eq!(rt; told(check_joint(&full, one)), Some(Told::call(12, 0)));
    let first_alone = Joint::new(one, &full);
    assert_eq!(rt; first_alone.len(), 1);
    assert_eq!(rt; head_of(&first_alone, 1), None);
}

#[test]
fn joint_limit(rt: HostRuntime) {
    let still = Movement {
        width: 1,
        count: 1,
        moving: 0,
    };
    let one = Series::new(&ROW, still);
    let eighth = Joint::new(heads(&ROW, 127), one);
    let quarter = Joint::new(&eighth, &eighth);
    check_limit(&rt, &Joint::new(&quarter, &quarter), &one);
}

// Numbers that are set aside of a series of 20 rules; the number and the spot of what is told, where they are refused,
// how many rules are left, and the heads of the first and the last.
struct Aside<'a> {
    numbers: &'a [u16],
    told: Option<(u8, usize)>,
    rules: usize,
    first: u16,
    last: u16,
}

const ASIDE: [Aside<'static>; 10] = [
    Aside {
        numbers: &[],
        told: None,
        rules: 20,
        first: 9,
        last: 161,
    },
    Aside {
        numbers: &[0],
        told: None,
        rules: 19,
        first: 17,
        last: 161,
    },
    Aside {
        numbers: &[19],
        told: None,
        rules: 19,
        first: 9,
        last: 153,
    },
    Aside {
        numbers: &[0, 1, 19],
        told: None,
        rules: 17,
        first: 25,
        last: 153,
    },
    Aside {
        numbers: &[0, 1, 2, 3, 4, 5, 6, 7, 8, 9, 10, 11, 12, 13, 14, 15],
        told: None,
        rules: 4,
        first: 137,
        last: 161,
    },
    Aside {
        numbers: &[0, 1, 2, 3, 4, 5, 6, 7, 8, 9, 10, 11, 12, 13, 14, 15, 16],
        told: Some((13, 17)),
        rules: 20,
        first: 9,
        last: 161,
    },
    Aside {
        numbers: &[20],
        told: Some((14, 0)),
        rules: 20,
        first: 9,
        last: 161,
    },
    Aside {
        numbers: &[5, 5],
        told: Some((14, 1)),
        rules: 20,
        first: 9,
        last: 161,
    },
    Aside {
        numbers: &[5, 4],
        told: Some((14, 1)),
        rules: 20,
        first: 9,
        last: 161,
    },
    Aside {
        numbers: &[5, 65535, 4],
        told: Some((14, 1)),
        rules: 20,
        first: 9,
        last: 161,
    },
];

#[test]
fn set_aside(rt: HostRuntime) {
    let series = heads(&ROW, 20);
    for aside in &ASIDE {
        let expected = aside.told.map(|(number, spot)| Told::call(number, spot));
        assert_eq!(rt; told(check_suspension(&series, aside.numbers)), expected);
        let left = Suspension::new(&series, aside.numbers);
        let len = left.len();
        assert_eq!(rt; len, aside.rules);
        assert_eq!(rt; head_of(&left, 0), Some(aside.first));
        assert!(rt; len > 0);
        assert_eq!(rt; head_of(&left, len - 1), Some(aside.last));
        assert_eq!(rt; head_of(&left, len), None);
        assert_eq!(rt; head_of(&left, usize::MAX), None);
    }
}

// A suspension of a joint of a suspension and a series: the heads that are left.
const LEFT: [Option<u16>; 6] = [Some(9), Some(33), Some(9), Some(17), Some(25), None];

#[test]
fn three_deep(rt: HostRuntime) {
    let series = heads(&ROW, 4);
    let inner = Suspension::new(&series, &[1, 2]);
    let joint = Joint::new(inner, &series);
    let outer = Suspension::new(&joint, &[5]);
    for (n, head) in LEFT.iter().enumerate() {
        assert_eq!(rt; head_of(&outer, n), *head);
    }
    assert_eq!(rt; outer.len(), 5);
}

// Whether joining in either order gives equal rules.
fn in_either_order<F: Book, S: Book>(first: &F, second: &S) -> bool {
    same_rules(&Joint::new(first, second), &Joint::new(second, first))
}

// A row like the first, with a mark that stands twice, and one that bars another mark.
const LIKE: [u8; 32] =
    *b"\x00\x09\x02\x01\x00\x07\x00\x07\x00\x0f\x00\x00\x00\x00\x00\x00\x00\x00\x00\x00\x00\x00\x00\x00\x00\x00\x00\x00\x00\x00\x00\x00";

const UNLIKE: [u8; 32] =
    *b"\x00\x09\x01\x01\x00\x07\x00\x0e\x00\x00\x00\x00\x00\x00\x00\x00\x00\x00\x00\x00\x00\x00\x00\x00\x00\x00\x00\x00\x00\x00\x00\x00";

#[test]
fn equal_rules(rt: HostRuntime) {
    let short = heads(&ROW, 2);
    let long = heads(&ROW, 4);
    assert!(rt; in_either_order(&short, &long));
    assert!(rt; same_rules(&Joint::new(short, long), &long));
    assert!(rt; !same_rules(&short, &long));
    assert!(rt; !same_rules(&long, &short));
    assert!(rt; same_rules(&heads(&LIKE, 2), &short));
    assert!(rt; !same_rules(&heads(&UNLIKE, 2), &short));
}
