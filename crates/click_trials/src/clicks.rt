// Clicks over a book whose two rules bar each other, so that a step has mark 1 or mark 9.
use bookfile::FileBook;
use books::Book;
use refusals::Fault;
use review::{Review, Shown};

// 1 bars 9, and 9 bars 1; without names for them the file is refused, so there are two.
const BOOK: [u8; 71] = [
    0, 2, //
    0, 1, 0, 1, 0, 9, 0, 0, 0, 0, 0, 0, 0, 0, 0, 0, 0, 0, 0, 0, 0, 0, 0, 0, 0, 0, 0, 0, 0, 0, 0, 0, //
    0, 9, 0, 1, 0, 1, 0, 0, 0, 0, 0, 0, 0, 0, 0, 0, 0, 0, 0, 0, 0, 0, 0, 0, 0, 0, 0, 0, 0, 0, 0, 0, //
    2, 1, 97, 1, 98,
];

// Kept: a type beside `transcripts::Call`, whose lists are vectors, which no constant can hold.
#[derive(Clone, Copy)]
enum Click<'a> {
    // Proposes these marks; nothing is said.
    Propose(&'a [u16]),
    Back(usize),
    Look(usize, u16),
    // Shows the step in so many words, at most twenty.
    Show(usize, usize),
}

// What a click is answered where it is not refused.
#[derive(Clone, Copy, PartialEq, Eq, Debug)]
enum Answer {
    // The number of the step that passed.
    Step(u8),
    // How many steps are left.
    Left(usize),
    // Whether the mark stands.
    Stands(bool),
    // How many marks were shown, and the lowest of them.
    Marks(u16, Option<u16>),
}

// The number of a refusal and its spot.
#[derive(Clone, Copy, PartialEq, Eq, Debug)]
struct Refusal(u8, usize);

const ROWS: [(Click<'static>, Result<Answer, Refusal>); 28] = [
    (Click::Back(0), Ok(Answer::Left(0))),
    (Click::Back(1), Err(Refusal(31, 0))),
    (Click::Look(0, 1), Err(Refusal(32, 0))),
    (Click::Look(1, 1), Err(Refusal(32, 0))),
    (Click::Show(1, 15), Err(Refusal(32, 0))),
    (Click::Propose(&[]), Err(Refusal(27, 1))),
    (Click::Propose(&[1, 9]), Err(Refusal(28, 1))),
    (Click::Propose(&[1]), Ok(Answer::Step(1))),
    (Click::Propose(&[1]), Ok(Answer::Step(2))),
    (Click::Propose(&[9]), Ok(Answer::Step(3))),
    (Click::Look(1, 1), Ok(Answer::Stands(true))),
    (Click::Look(1, 9), Ok(Answer::Stands(false))),
    (Click::Look(3, 9), Ok(Answer::Stands(true))),
    (Click::Look(3, 1024), Err(Refusal(33, 1024))),
    (Click::Look(4, 1024), Err(Refusal(32, 3))),
    (Click::Look(0, 1024), Err(Refusal(32, 3))),
    (Click::Show(3, 16), Ok(Answer::Marks(1, Some(9)))),
    (Click::Show(3, 15), Err(Refusal(35, 16))),
    (Click::Back(3), Ok(Answer::Left(3))),
    (Click::Back(4), Err(Refusal(31, 3))),
    (Click::Back(1), Ok(Answer::Left(1))),
    (Click::Look(2, 1), Err(Refusal(32, 1))),
    (Click::Propose(&[9]), Ok(Answer::Step(2))),
    (Click::Look(2, 9), Ok(Answer::Stands(true))),
    (Click::Show(2, 20), Ok(Answer::Marks(1, Some(9)))),
    (Click::Show(1, 16), Ok(Answer::Marks(1, Some(1)))),
    (Click::Back(0), Ok(Answer::Left(0))),
    (Click::Show(1, 16), Err(Refusal(32, 0))),
];

fn refused<F: Fault + Drop>(fault: F) -> Refusal {
    let told = fault.tell();
    Refusal(told.number, told.spot)
}

fn ask<B: Book>(review: &mut Review<B>, click: Click<'_>) -> Result<Answer, Refusal> {
    match click {
        Click::Propose(marks) => review
            .propose(&[], marks)
            .map(|accepted| Answer::Step(accepted.step))
            .map_err(refused),
        Click::Back(n) => review.go_back(n).map(Answer::Left).map_err(refused),
        Click::Look(step, mark) => review.look(step, mark).map(Answer::Stands).map_err(refused),
        Click::Show(step, words) => review
            .show(step, &mut [7; 20][..words.min(20)])
            .map(|shown| Answer::Marks(shown.marks, shown.lowest))
            .map_err(refused),
    }
}

#[test]
fn clicks_one_after_the_other(rt: HostRuntime) {
    let mut review = Review::new(FileBook::new(&BOOK));
    for (click, expected) in ROWS {
        assert_eq!(rt; ask(&mut review, click), expected);
    }
    assert_eq!(rt; review.steps(), 0);
}

// A longer list keeps its rest, and a list of fifteen words keeps everything.
#[test]
fn words_that_are_shown(rt: HostRuntime) {
    let mut review = Review::new(FileBook::new(&[0, 0, 0]));
    let _ = review.propose(&[4, 1020], &[4, 1020]);
    let mut few = [7; 15];
    assert_eq!(rt;
        review.show(1, &mut few).map_err(refused),
        Err(Refusal(35, 16))
    );
    assert_eq!(rt; few, [7; 15]);
    let mut words = [7; 18];
    assert_eq!(rt;
        review.show(1, &mut words),
        Ok(Shown {
            marks: 2,
            lowest: Some(4)
        })
    );
    assert_eq!(rt;
        words,
        [16, 0, 0, 0, 0, 0, 0, 0, 0, 0, 0, 0, 0, 0, 0, 1 << 60, 7, 7]
    );
}
