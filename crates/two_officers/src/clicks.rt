// The clicks of the officers, as tables.
use std::alloc::{AllocError, Global};
use transcripts::{Call, Exchange};

// Kept: a type beside `Call`, whose lists are vectors, which no constant can hold.
#[derive(Clone, Copy)]
pub(crate) enum Click<'a> {
    // What is said, and what is proposed.
    Propose(&'a [u16], &'a [u16]),
    Back(usize),
    Look { step: usize, mark: u16 },
    List(usize),
    // So many words are lent for it.
    Show { step: usize, words: usize },
}

// A first step with access, at which nothing is said; and one with the objection.
pub(crate) const ACCESS: [Click<'static>; 1] = [Click::Propose(&[], &[1])];

pub(crate) const OBJECTION: [Click<'static>; 1] = [Click::Propose(&[], &[9])];

// The four steps of a notice that has to be given and comes too late.
pub(crate) const STRAIGHT: [Click<'static>; 4] = [
    Click::Propose(&[4], &[4]),
    Click::Propose(&[11], &[0, 1, 10, 11, 20]),
    Click::Propose(&[28], &[0, 1, 10, 16, 17, 28, 34]),
    Click::Propose(&[], &[0, 1, 10, 16, 17, 22, 24, 25, 34]),
];

// The same four steps, with refusals, looks and returns on the way.
pub(crate) const DETOURS: [Click<'static>; 14] = [
    Click::Propose(&[4], &[4, 5]),
    Click::Propose(&[4], &[4]),
    Click::Propose(&[11], &[0, 1, 10, 11]),
    Click::Propose(&[11], &[0, 1, 10, 11, 20]),
    Click::Look { step: 2, mark: 20 },
    Click::Propose(&[], &[0, 1, 10, 16, 17, 34]),
    Click::Show { step: 3, words: 16 },
    Click::Back(5),
    Click::Back(2),
    Click::Propose(&[28], &[0, 1, 10, 16, 17, 28, 34]),
    Click::List(0),
    Click::Propose(&[], &[0, 1, 10, 16, 17, 22, 24, 25, 34]),
    Click::List(0),
    Click::Show { step: 4, words: 15 },
];

impl Click<'_> {
    // The call that the click makes.
    fn call(self, heap: Global) -> Result<Call, AllocError> {
        Ok(match self {
            Click::Propose(said, proposed) => Call::Propose {
                said: said.to_vec(heap)?,
                proposed: proposed.to_vec(heap)?,
            },
            Click::Back(n) => Call::GoBack { n },
            Click::Look { step, mark } => Call::Look { step, mark },
            Click::List(k) => Call::List { k },
            Click::Show { step, .. } => Call::Show { step },
        })
    }

    // How many words are lent with the click.
    fn lent(self) -> usize {
        match self {
            Click::Show { words, .. } => words,
            _ => 0,
        }
    }

    // The click as a call that waits for its answer.
    fn exchange(self, heap: Global) -> Result<Exchange, AllocError> {
        Ok(Exchange {
            call: self.call(heap)?,
            words: vec![in heap; 0; self.lent()]?,
            answer: None,
        })
    }
}

// The clicks as calls that wait for their answers.
pub(crate) fn exchanges(heap: Global, clicks: &[Click<'_>]) -> Result<Vec<Exchange>, AllocError> {
    clicks
        .iter()
        .map(|click| click.exchange(heap))
        .try_collect(heap)
}
