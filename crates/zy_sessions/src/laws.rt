//! Laws of the notes: each is the contract of a function without a body.
ghost use Rattle.std.specs.Prelude.{◌≡◌, ◌↔◌, ◌<◌, ◌≤◌, ℕ, List, length, None, Some};
ghost use Rattle.std.specs.List.{slice_get};
ghost use Rattle.zy_capture.specs.declared.record.Record.{Record};
ghost use Rattle.zy_sessions.specs.declared.session.Session.{Session};
ghost use Rattle.zy_sessions.specs.declared.sessions.Sessions.{Sessions};
ghost use Rattle.zy_sessions.specs.Sessions.{SessionHolds, SessionsHold, HasNothing, session_at};
ghost use Rattle.zy_times.specs.Sessions.{IsSentIn, marks_at};

/// A session among the notes is as they say, and another one has no bytes and no marks.
pub fn a_session_not_noted_has_nothing()
    ensures noted { (sessions : Sessions) (count : ℕ) (records : List Record) → SessionsHold sessions count records
        → (conn session : ℕ) (s : Session) → session_at sessions conn session ≡ Some s
        → SessionHolds records conn session s }
    ensures none { (sessions : Sessions) (count : ℕ) (records : List Record) → SessionsHold sessions count records
        → (conn session : ℕ) → session_at sessions conn session ≡ None → HasNothing records conn session }
{}

/// The moments of commands and of marks never fall.
pub fn moments_never_fall()
    ensures sent { (records : List Record) (conn session : ℕ) (s : Session) → SessionHolds records conn session s
        → (p q first last : ℕ) → slice_get s.sent.items p ≡ Some first → slice_get s.sent.items q ≡ Some last
        → p ≤ q → first ≤ last }
    ensures marks { (records : List Record) (conn session : ℕ) (s : Session) → SessionHolds records conn session s
        → (p q first last : ℕ) → slice_get s.marks.items p ≡ Some first → slice_get s.marks.items q ≡ Some last
        → p ≤ q → first ≤ last }
{}

/// Each command of a session has a moment, from which on it is sent. Each mark of it has one, from
/// which on it has come.
pub fn a_command_is_sent_from_its_moment()
    ensures each { (records : List Record) (conn session : ℕ) (s : Session) → SessionHolds records conn session s
        → length s.sent.items ≡ length s.commands.items }
    ensures sent { (records : List Record) (conn session : ℕ) (s : Session) → SessionHolds records conn session s
        → (index at moment : ℕ) → slice_get s.sent.items index ≡ Some at
        → (IsSentIn records conn session index moment ↔ at ≤ moment) }
    ensures marks { (records : List Record) (conn session : ℕ) (s : Session) → SessionHolds records conn session s
        → (number at moment : ℕ) → slice_get s.marks.items number ≡ Some at
        → (number < marks_at records conn session moment ↔ at ≤ moment) }
{}
