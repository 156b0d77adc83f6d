// The questions that a book answers, from two books.
ghost use Rattle.std.specs.Prelude.{◌≡◌};
ghost use Rattle.std.specs.List.{slice_get};
ghost use Rattle.joint.specs.Joined.{joint_check, joint_rules, meant};
ghost use Rattle.joint.specs.Places.{at_place};
ghost use Rattle.joint.specs.Sound.{sound_joint};

use crate::check::check_joint;
use crate::joint::{Joint, Place};
use books::Book;
use marks::Mark;

impl<F: Book, S: Book> Joint<F, S> {
    // The two books as one. Where the check refuses them, it means the first alone.
    pub fn new(first: F, second: S) -> Joint<F, S>
        ensures first { result.first ≡ first }
        ensures second { result.second ≡ second }
        ensures rules { joint_rules (F.Book.rules result.first) (S.Book.rules result.second) ≡ meant (joint_check (F.Book.rules first) (S.Book.rules second)) (F.Book.rules first) (S.Book.rules second) }
    {
        Joint { first, second }
    }

    // Where rule n stands, if there is one.
    #[tactic(auto, using(crate::proofs::Joining::place_first, crate::proofs::Joining::place_second, crate::proofs::Joining::place_past, crate::proofs::Joining::ok_passed, crate::proofs::Joining::ok_refused))]
    fn place(&self, n: usize) -> Option<Place>
        ensures { at_place (F.Book.rules self.now.first) (S.Book.rules self.now.second) result ≡ slice_get (joint_rules (F.Book.rules self.now.first) (S.Book.rules self.now.second)) n }
    {
        let before = self.first.len();
        if n < before {
            return Some(Place::First(n));
        }
        check_joint(&self.first, &self.second).ok()?;
        Some(Place::Second(n - before))
    }
}

impl<F: Book, S: Book> Book for Joint<F, S> {
    ghost rules = { λ j. joint_rules (F.Book.rules j.first) (S.Book.rules j.second) };

    ghost sound = { λ j. sound_joint (F.Book.rules j.first) (S.Book.rules j.second) (F.Book.sound j.first) (S.Book.sound j.second) };

    #[tactic(auto, using(crate::proofs::Joining::size))]
    fn len(&self) -> usize {
        match check_joint(&self.first, &self.second) {
            Ok(()) => self.first.len() + self.second.len(),
            Err(_) => self.first.len(),
        }
    }

    fn head(&self, n: usize) -> Option<Mark> {
        match self.place(n)? {
            Place::First(k) => self.first.head(k),
            Place::Second(k) => self.second.head(k),
        }
    }

    fn counts(&self, n: usize) -> Option<(u8, u8)> {
        match self.place(n)? {
            Place::First(k) => self.first.counts(k),
            Place::Second(k) => self.second.counts(k),
        }
    }

    fn body(&self, n: usize, k: usize) -> Option<Mark> {
        match self.place(n)? {
            Place::First(at) => self.first.body(at, k),
            Place::Second(at) => self.second.body(at, k),
        }
    }
}
