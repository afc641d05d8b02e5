//! What there is of replies, transcripts and outputs: that there is one, and not two, as calls that do nothing and promise
//! the law.
ghost use Rattle.cls_laws.specs.FedBack.{CertificatesAreAccepted};
ghost use Rattle.cls_laws.specs.Existence.{AnswersExist, HistoriesExist, ClosuresExist, GrammarTextsExist, VerdictsExist, ReadingsExist, TypesHaveClosures, AuditsExist, CertificatesExist, SizesExist, PagesExist, FilteredPagesExist, LinesHaveReplies, TranscriptsGoOn, OutputsExist, WhatMayStandBegins, RoomForOutputsIsEnough};
ghost use Rattle.cls_laws.specs.Live.{RepliesAreFromScratch};
ghost use Rattle.cls_laws.specs.Uniqueness.{AuditsAreNamed, RepliesAreDetermined, TranscriptsAreDetermined, OutputsAreDetermined};

use cls_engine::laws::certificates_decide;

/// Law: each goal has an answer by each library.
pub fn answers_exist()
    ensures { AnswersExist }
{}

/// Law: a closure that isn't larger than a number has a legal complete history, by any one worker.
pub fn histories_exist()
    ensures { HistoriesExist }
{}

/// Law: a closure that isn't larger than a number has rows in its canonical numbering.
pub fn closures_exist()
    ensures { ClosuresExist }
{}

/// Law: each grammar has a text.
pub fn grammar_texts_exist()
    ensures { GrammarTextsExist }
{}

/// Law: each certificate is accepted or refused.
pub fn verdicts_exist()
    ensures { VerdictsExist }
{}

/// Law: lines say a certificate, or one of them is the first bad one, or none is `qed`.
pub fn readings_exist()
    ensures { ReadingsExist }
{}

/// Law: a type that the engine can work on has a closure.
pub fn types_have_closures()
    ensures { TypesHaveClosures }
{}

/// Law: a type that the engine can work on has a history that an audit may tell.
pub fn audits_exist()
    ensures { AuditsExist }
{}

/// Law: a type that the engine can work on has a certificate.
pub fn certificates_exist()
    ensures { CertificatesExist }
{}

/// Law: how large the terms of a type are that the engine can work on can be told, if each component costs at least 1.
pub fn sizes_exist()
    ensures { SizesExist }
{}

/// Law: a type that the engine can work on has each page that asks for at least one term, if each component costs at least 1.
pub fn pages_exist()
    ensures { PagesExist }
{}

/// Law: it has each such page of the terms that an automaton accepts, if the filtered closure isn't too large.
pub fn filtered_pages_exist()
    ensures { FilteredPagesExist }
{}

/// Law: after the lines of a repository each line has a reply, and so has the end of the lines.
pub fn lines_have_replies()
    ensures { LinesHaveReplies }
{}

/// Law: what stands written for lines goes on with each line more, unless they are refused then, and it goes on to an ending
/// if no line follows.
pub fn transcripts_go_on()
    ensures { TranscriptsGoOn }
{}

/// Law: whatever the words and the bytes are, a run has an output.
pub fn outputs_exist()
    ensures { OutputsExist }
{}

/// Law: what may stand written at one time or another in a run begins an output.
pub fn what_may_stand_begins()
    ensures { WhatMayStandBegins }
{}

/// Law: room for each output is the room that a run requires.
pub fn room_for_outputs_is_enough()
    ensures { RoomForOutputsIsEnough }
{}

/// Law: a line whose first word isn't `audit` asks for no audit.
pub fn audits_are_named()
    ensures { AuditsAreNamed }
{}

/// Law: what is written for a line after a repository, and what queries are answered by after it, are functions of the
/// line and of what they were answered by, whatever the number of workers, but that an audit may tell any legal complete
/// history.
pub fn replies_are_determined()
    ensures { RepliesAreDetermined }
{}

/// Law: what is written for lines, and the status if no more follow, are functions of the lines and the options other than
/// the number of workers, reply by reply but for those to audits. If no line asks for one, it is one text.
pub fn transcripts_are_determined()
    ensures { TranscriptsAreDetermined }
{}

/// Law: the status is a function of the bytes and of what the words of the command line ask for other than the number of
/// workers, and so is what is written, reply by reply but for those to audits. If no line asks for one, it is one text.
pub fn outputs_are_determined()
    ensures { OutputsAreDetermined }
{}

/// Law: after any lines, what answers the next one is what a session over the repository as it then stands would open
/// with, but for the numbering of names: with each component that was added, as if its line were the last one before
/// `end`, and without each that was dropped, as if no line spoke of it. So each reply is the one from scratch.
pub fn replies_are_from_scratch()
    ensures { RepliesAreFromScratch }
{}

/// Law: a certificate that `certify` prints of a type is accepted for it: if its lines are fed back behind one that asks for
/// its verification, `accepted` is written and nothing else, and no name is new. What it says has to be within the limits of
/// lines.
pub fn printed_certificates_are_accepted()
    ensures { CertificatesAreAccepted }
{
    certificates_decide();
}
