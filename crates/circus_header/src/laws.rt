// What holds of the bytes of headers.
ghost use Rattle.std.specs.Prelude.{◌≡◌, ℕ, ◌++◌, List, Result, Ok, Err};
ghost use Rattle.circus_header.specs.Field.{bytes_of};
ghost use Rattle.circus_header.specs.Reading.{calls, returns, IsOne, BeginsWith, IsAnswer};
ghost use Rattle.circus_header.specs.declared.call.Call.{Call};
ghost use Rattle.circus_header.specs.declared.answer.ReturnHeader.{ReturnHeader};
ghost use Rattle.circus_header.specs.declared.header_fault.HeaderFault.{HeaderFault};
ghost use Rattle.circus_header.specs.declared.header_fault.HeaderFault.TheVariants as fault;
ghost use Rattle.std.specs.Bool.{Decides};
ghost use Rattle.circus_header.specs.declared.answer.Reply.{Reply};
ghost use Rattle.circus_header.specs.ReplyEquality.{reply_eq};

/// Bytes have one answer, but for want of memory (docs/FORMATS.md, "Headers").
pub fn one_answer()
    ensures calls { (bytes : List ℕ) (a b : Result (Call × ℕ) HeaderFault) → IsAnswer calls bytes a
        → IsAnswer calls bytes b
        → (a ≡ Err fault.NoMemory → ⊥) → (b ≡ Err fault.NoMemory → ⊥) → a ≡ b }
    ensures returns { (bytes : List ℕ) (a b : Result (ReturnHeader × ℕ) HeaderFault)
        → IsAnswer returns bytes a → IsAnswer returns bytes b
        → (a ≡ Err fault.NoMemory → ⊥) → (b ≡ Err fault.NoMemory → ⊥) → a ≡ b }
{}

/// What begins with a header has that header as its answer, but for want of memory (docs/FORMATS.md,
/// "Headers").
pub fn headers_are_read()
    ensures calls { (bytes : List ℕ) (call : Call) (len : ℕ) (a : Result (Call × ℕ) HeaderFault)
        → BeginsWith calls bytes call len
        → IsAnswer calls bytes a → (a ≡ Err fault.NoMemory → ⊥) → a ≡ Ok (call, len) }
    ensures returns { (bytes : List ℕ) (header : ReturnHeader) (len : ℕ)
        (a : Result (ReturnHeader × ℕ) HeaderFault) → BeginsWith returns bytes header len
        → IsAnswer returns bytes a → (a ≡ Err fault.NoMemory → ⊥) → a ≡ Ok (header, len) }
{}

/// The bytes of a header begin with those of no other header of its kind (docs/FORMATS.md, "Headers").
pub fn no_header_begins_another()
    ensures calls { (a b : Call) (rest : List ℕ) → IsOne calls a → IsOne calls b
        → bytes_of (calls.fields b) ≡ bytes_of (calls.fields a) ++ rest → a ≡ b }
    ensures returns { (a b : ReturnHeader) (rest : List ℕ) → IsOne returns a → IsOne returns b
        → bytes_of (returns.fields b) ≡ bytes_of (returns.fields a) ++ rest → a ≡ b }
{}

/// Replies are equal exactly where clock and outcome are the same.
pub fn equal_replies_are_the_same()
    ensures { (a b : Reply) → Decides (reply_eq a b) (a ≡ b) }
{}
