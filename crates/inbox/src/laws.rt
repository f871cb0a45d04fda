//! Laws of judging, each the contract of a function that does nothing.

ghost use Rattle.std.specs.Prelude.{◌≡◌, ◌↔◌, ℕ, List, IsTrue, length, map};
ghost use Rattle.salt_line.specs.Line.{Line, IsValidSalt};
ghost use Rattle.service_tl.specs.declared.lists.Message.{Message};
ghost use Rattle.id_window.specs.Marks.{given};
ghost use Rattle.id_window.specs.History.{noted};
ghost use Rattle.inbox.specs.Verdicts.{Verdict, Accepted};
ghost use Rattle.inbox.specs.Kinds.{kind_of, item_told, inner_messages};
ghost use Rattle.inbox.specs.Refusals.{InEnvelope, is_valid_salt};
ghost use Rattle.inbox.specs.Judging.{Session, judge, judged_session, session_after, inner_session, inner_judgements, outcome_of, first_mark};
ghost use Rattle.inbox.specs.Acceptance.{IsAcceptable};

/// A message that nothing refuses is accepted and recorded.
pub fn acceptable_messages_are_accepted()
    ensures accepted { (now : ℕ) (line : Line) (salt : ℕ) (session : Session) (message : Message) → IsAcceptable now line salt session message
        → judge (InEnvelope now line salt) session message ≡ Accepted (item_told message.body) }
    ensures recorded { (now : ℕ) (line : Line) (salt : ℕ) (session : Session) (message : Message) → IsAcceptable now line salt session message
        → judged_session (InEnvelope now line salt) session message ≡ record {
          history = noted message.number message.seq (outcome_of (kind_of message)) session.history;
          marks = given message.number (first_mark (outcome_of (kind_of message))) session.marks;
        } }
    ensures remembered { (now : ℕ) (line : Line) (salt : ℕ) (session : Session) (message : Message) → IsAcceptable now line salt session message
        → session_after (InEnvelope now line salt) session message ≡ inner_session (record {
          history = noted message.number message.seq (outcome_of (kind_of message)) session.history;
          marks = given message.number (first_mark (outcome_of (kind_of message))) session.marks;
        }) (inner_messages message) }
{}

/// Each message inside a container has a judgement, in the same order, with its number and its sequence number.
pub fn each_message_has_a_judgement()
    ensures lengths { (session : Session) (messages : List Message) → length (inner_judgements session messages) ≡ length messages }
    ensures numbers { (session : Session) (messages : List Message)
        → map (λ judgement. judgement.number) (inner_judgements session messages) ≡ map (λ message. message.number) messages }
    ensures seqs { (session : Session) (messages : List Message)
        → map (λ judgement. judgement.seq) (inner_judgements session messages) ≡ map (λ message. message.seq) messages }
{}

/// The test of salts in the definition of judging is the definition of valid salts.
pub fn salts_are_tested()
    ensures { (line : Line) (now salt : ℕ) → IsTrue (is_valid_salt line now salt) ↔ IsValidSalt line now salt }
{}
