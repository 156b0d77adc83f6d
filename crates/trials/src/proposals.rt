// What is answered to proposals, and what is reported of them.
use crate::files::{BOOK, CASE};
use crate::telling::{refused, told};
use bookfile::{FileBook, Names};
use report::{last_line, report_line};
use review::{Accepted, Review};
use run::run_files;

// First steps over the late notice that are refused.
#[test]
fn refused_steps(rt: HostRuntime) {
    let mut review = Review::new(FileBook::new(&BOOK));
    assert_eq!(rt; told(review.propose(&[1024], &[])), refused(22, 0));
    assert_eq!(rt; told(review.propose(&[4, 1024], &[])), refused(22, 1));
    assert_eq!(rt; told(review.propose(&[4, 4], &[])), refused(23, 1));
    assert_eq!(rt; told(review.propose(&[5, 4], &[])), refused(23, 1));
    assert_eq!(rt; told(review.propose(&[4, 9], &[])), refused(24, 1));
    assert_eq!(rt; told(review.propose(&[0], &[])), refused(24, 0));
    assert_eq!(rt; told(review.propose(&[6], &[1024])), refused(24, 0));
    assert_eq!(rt; told(review.propose(&[4], &[1024])), refused(25, 0));
    assert_eq!(rt; told(review.propose(&[4], &[4, 4])), refused(26, 1));
    assert_eq!(rt; told(review.propose(&[4], &[5, 4])), refused(26, 1));
    assert_eq!(rt; told(review.propose(&[4], &[])), refused(27, 4));
    assert_eq!(rt; told(review.propose(&[], &[4])), refused(28, 4));
    assert_eq!(rt; told(review.propose(&[4], &[4, 9])), refused(28, 9));
    assert_eq!(rt; told(review.propose(&[11], &[11, 20])), refused(27, 15));
    assert_eq!(rt; review.steps(), 0);
}

// Over a book without rules 64 steps pass, and the next is refused.
#[test]
fn sixty_four_steps(rt: HostRuntime) {
    let mut review = Review::new(FileBook::new(&[0, 0, 0]));
    for n in 0..64 {
        let accepted = Accepted {
            step: n + 1,
            depth: 0,
            findings: 0,
        };
        assert_eq!(rt; review.propose(&[], &[]).ok(), Some(accepted));
    }
    assert_eq!(rt; told(review.propose(&[1024], &[])), refused(21, 64));
}

// A case that passes, and its one finding.
#[test]
fn late_notice(rt: HostRuntime) {
    let (review, outcome) = run_files(&BOOK, &CASE);
    assert!(rt; outcome.is_ok());
    assert_eq!(rt; review.steps(), 4);
    assert_eq!(rt; review.list(0).ok(), Some((4, 22)));
    assert_eq!(rt; told(review.list(1)), refused(34, 1));
}

// The line of the finding, in a longer buffer and in one that is too short.
#[test]
fn line_of_the_finding(rt: HostRuntime) {
    let (review, _) = run_files(&BOOK, &CASE);
    let names = Names::new(&BOOK);
    let mut buffer = [7; 20];
    assert_eq!(rt; report_line(&review, 0, &names, &mut buffer).ok(), Some(18));
    assert!(rt; buffer == *b"4 violated inform\n\x07\x07");
    let mut short = [7; 17];
    assert_eq!(rt;
        told(report_line(&review, 0, &names, &mut short)),
        refused(41, 18)
    );
    assert!(rt; short == [7; 17]);
}

// Without names an instance is written by its number; the last line tells how many steps stand.
#[test]
fn number_for_a_name(rt: HostRuntime) {
    let (review, outcome) = run_files(&BOOK, &CASE);
    let mut buffer = [7; 16];
    assert_eq!(rt;
        report_line(&review, 0, &Names::new(&[]), &mut buffer).ok(),
        Some(14)
    );
    assert!(rt; buffer == *b"4 violated #2\n\x07\x07");
    let mut last = [7; 9];
    assert_eq!(rt; last_line(&review, &outcome, &mut last).ok(), Some(8));
    assert!(rt; last == *b"steps 4\n\x07");
}
