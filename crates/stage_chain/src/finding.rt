// What a check finds.
ghost use Rattle.std.specs.Prelude.{◌≡◌};
ghost use Rattle.stage_chain.specs.Hand.{is_hand_file};
ghost use Rattle.stage_chain.specs.Findings.{finding_of, is_of_people, names_hand};

use crate::cause::Cause;
use crate::origin::{Origin, origin_of};
use crate::rule::Rule;
use giv_files::Stage;
use tables::{FileId, Refusal};

/// Why a dataset does not pass.
#[derive(Debug, Drop)]
pub enum Finding {
    /// What people write is refused.
    BadInput(Cause),
    /// The files of a stage break a rule.
    Broken(Stage, Rule),
}

impl Finding {
    /// What is found where a stage is not given its inputs, or refuses them.
    #[tactic(auto, unfolding(crate::specs::Findings::finding_of))]
    pub fn of(stage: Stage, cause: Cause) -> Finding
        ensures { result ≡ finding_of stage cause }
    {
        match cause {
            Cause::BadConfig(fault) => Finding::BadInput(Cause::BadConfig(fault)),
            Cause::Missing(file) => {
                if is_hand_file(file) {
                    Finding::BadInput(Cause::Missing(file))
                } else {
                    Finding::Broken(stage, Rule::Missing)
                }
            }
            Cause::TooLong(file) => {
                if is_hand_file(file) {
                    Finding::BadInput(Cause::TooLong(file))
                } else {
                    Finding::Broken(stage, Rule::Missing)
                }
            }
            Cause::Refused(at, refusal) => {
                if names_hand(&refusal) {
                    Finding::BadInput(Cause::Refused(at, refusal))
                } else {
                    Finding::Broken(stage, Rule::Input)
                }
            }
        }
    }
}

// Whether people write a file.
#[tactic(auto, using(crate::proofs::HandFiles::hand_by_origin))]
fn is_hand_file(file: FileId) -> bool
    ensures { result ≡ is_hand_file file }
{
    is_of_people(origin_of(file))
}

// Whether people write the files of an origin.
fn is_of_people(origin: Origin) -> bool
    ensures { result ≡ is_of_people origin }
{
    match origin {
        Origin::Needed | Origin::Optional => true,
        Origin::Earlier => false,
    }
}

// Whether a refusal names a row of a file that people write.
fn names_hand(refusal: &Refusal) -> bool
    ensures { result ≡ names_hand refusal.now }
{
    match refusal {
        Refusal::BadRow { file, .. } => is_hand_file(*file),
        Refusal::TooMany { .. } | Refusal::NoSolution | Refusal::Spent { .. } => false,
    }
}
