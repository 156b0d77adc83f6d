// A call of a review with a place for its answer.
use review::{Accepted, BackFault, ListFault, LookFault, ProposeFault, ShowFault, Shown};

// A call with its arguments.
#[derive(PartialEq, Eq, Debug, Drop)]
pub enum Call {
    Propose { said: Vec<u16>, proposed: Vec<u16> },
    GoBack { n: usize },
    Look { step: usize, mark: u16 },
    List { k: usize },
    // The step is written into the words of the exchange.
    Show { step: usize },
}

// What a call answered.
#[derive(Clone, Copy, PartialEq, Eq, Debug)]
pub enum Answer {
    Proposed(Result<Accepted, ProposeFault>),
    WentBack(Result<usize, BackFault>),
    Looked(Result<bool, LookFault>),
    Listed(Result<(u8, u16), ListFault>),
    Shown(Result<Shown, ShowFault>),
}

// A call, the words that are lent with it, and its answer; none before it was heard. Only `Show` writes words.
#[derive(PartialEq, Eq, Debug, Drop)]
pub struct Exchange {
    pub call: Call,
    pub words: Vec<u64>,
    pub answer: Option<Answer>,
}
