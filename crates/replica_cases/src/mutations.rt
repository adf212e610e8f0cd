//! Texts that are cut, or have one octet replaced.

use crate::operations::{Finding, finding_of};
use case_lines::{Words, with_octet};
use std::alloc::{AllocError, Global};

/// How many texts were refused, sound, unsound or changed.
#[derive(Clone, Copy)]
pub struct Findings {
    refused: u64,
    sound: u64,
    unsound: u64,
    changed: u64,
}

impl Findings {
    fn none() -> Findings {
        Findings {
            refused: 0,
            sound: 0,
            unsound: 0,
            changed: 0,
        }
    }

    fn note(&mut self, finding: Finding) {
        match finding {
            Finding::NotInForm => self.refused = self.refused.saturating_add(1),
            Finding::Sound => self.sound = self.sound.saturating_add(1),
            Finding::Unsound(_) => self.unsound = self.unsound.saturating_add(1),
            Finding::Changed => self.changed = self.changed.saturating_add(1),
        }
    }
}

/// Puts how many texts were refused, sound, unsound or changed.
pub fn put_findings(findings: Findings, answer: &mut Words) {
    answer.put_number(" ", findings.refused);
    answer.put_number(" refused, ", findings.sound);
    answer.put_number(" sound, ", findings.unsound);
    answer.put_number(" unsound, ", findings.changed);
    answer.put(" changed");
}

/// The octets that replace others if a line names none.
const STRANGE: [u8; 5] = [0, 10, 32, 126, 255];

/// Puts how many of the text's shorter prefixes, and of the texts with one octet replaced by 0, 10,
/// 32, 126 or 255, aren't written as they were read; nothing if all are.
pub fn put_damage(text: &[u8], answer: &mut Words) {
    let cut = findings_of_cuts(answer.alloc(), text).changed;
    let replaced = findings_of_octets(answer.alloc(), text, &STRANGE).changed;
    if cut > 0 || replaced > 0 {
        answer.put_number(", changed where it is cut ", cut);
        answer.put_number(" and damaged ", replaced);
    }
}

/// The findings on the shorter prefixes of a text.
pub fn findings_of_cuts(alloc: Global, text: &[u8]) -> Findings {
    let mut findings = Findings::none();
    for length in 0..text.len() {
        findings.note(finding_of(alloc, &text[..length]));
    }
    findings
}

/// The findings on a text with each of these octets at each place.
pub fn findings_of_octets(alloc: Global, text: &[u8], octets: &[u8]) -> Findings {
    let mut findings = Findings::none();
    for octet in octets {
        note_octet(alloc, text, *octet, &mut findings);
    }
    findings
}

fn note_octet(alloc: Global, text: &[u8], octet: u8, findings: &mut Findings) {
    for at in 0..text.len() {
        findings.note(finding_with(alloc, text, at, octet));
    }
}

/// The finding on the text with this octet at this place.
fn finding_with(alloc: Global, text: &[u8], at: usize, octet: u8) -> Finding {
    match with_octet(alloc, text, at, octet) {
        Ok(other) => finding_of(alloc, &other),
        Err(AllocError) => Finding::Changed,
    }
}
