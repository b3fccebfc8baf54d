// The trace language: its reader, its writer, and the texts that a replay prints.
//
// A trace is a text of lines. A line is words with single spaces between them: the first is one of
// the language's words, and the others are numbers, of which one may have a sign. The header has eight lines, and each phase
// has its turns, every lane with its operations, and the gives and freezes. `specs/Lines.antt` says which text
// spells which trace: it lists the lines of a trace in order and writes each of them, and knows
// nothing of reading.
//
// The first line says the version. Version 2 has one word more than the 24 of version 1, `freeze`; before the first line was
// read the words are those of version 1 (`KnowsWord`). From version 3 on the first operand of a `turn` may have a sign: `-k`
// withholds k frames more, `+k` returns k (`Shift`). A trace keeps the number that is withheld in each turn, and its text the
// differences, from 0 on in each phase (`turn_lines`). All else of the grammar is the same in all versions.
//
// The reader has two ways. The fast one takes up the lines of phases, which are nearly all of a trace, in one look at each
// byte: `ahead` takes a number or a word off the start of the text, `operations` a whole line, and `draft` puts what it
// says after what was read so far. Where it meets anything else it stops, and says nothing of what it met: its contracts
// speak of good lines alone. There the exact way reads one line, which is a line of the header, a turn with a sign or after such
// a turn, `freeze`, `done`, or one that fails.
// `cutting` takes off the line and its words, `words` and `numbers` say what they are, `grammar` whether such a line may
// stand next, and `checking` whether its numbers are in range. A line is tested in seven steps, and the first test that
// fails gives the fault (`specs/Faults.antt`).
//
// Between two lines the reader keeps a draft of the trace and its `Progress`: the version, the stage in the text, the
// setup, how many lanes of the phase have stood, and how many frames its last turn withholds. A list of the trace is made at its
// own length once its last element is read, and the hints of a turn go through one buffer of 64, so a trace takes no more room than
// its lists need. A list of more than 1,024 elements is taken as it grew, and shrunk. The fast way takes a number by at most 19 digits, so none
// needs a test for overflow, and 2^63 is tested once at the end.
//
// In contracts the reader is a function of the bytes (`specs/Reading.antt`), which each function of
// the code mirrors. What counts are the clauses of `read`, which don't name it: a trace is answered
// exactly where the bytes spell it, and a fault exactly where it is the text's fault. `laws` has
// what the definitions say together: one trace a text, one text a trace, and one fault a bad text.
//
// What a replay prints is put after a text that has room for it (`rooms`), by calls that take no memory: `phase_room` and
// `need_room` take the room before there is anything to print. How much is enough is said by `specs/TextRooms.antt`.
//
// A new operation is a row in `Verb`, `verb_name`, `verb_of` and the list `all_verbs`, in `arity`, `op_of`, `is_op`, `verb_of_op` and
// `operands_of_op`, and in `verb_ahead` and `operands_of_op_ahead`, with one clause in each lemma by cases on operations. A new line
// beside `give` and `freeze` is a constructor of `Line` with its rows in `Grammar`, and one clause in the lemmas of `FollowLines` and
// `ReadOfTrace`; the fast way needs none. If its word is one of a later version, it has a row in `KnowsWord`, `later_words` and
// `later_of` too.
#![tactic(auto)]

mod ahead;
mod checking;
mod cutting;
mod draft;
mod fault;
mod grammar;
mod laws;
mod line;
mod numbers;
mod operations;
mod reading;
mod replies;
mod rooms;
mod words;
mod writing;

pub use fault::{Cause, ReadTrace, TraceFault};
pub use laws::{
    law_before_signs, law_first_lines, law_first_version, law_next_word, law_one_fault,
    law_one_reply, law_one_text, law_one_trace, law_replies_fit, law_withheld,
};
pub use reading::read;
pub use replies::{need_room, phase_room, phase_text, put_need, put_phase, reply_line};
pub use rooms::{put, put_number, put_numbered, put_small};
pub use words::Verb;
pub use writing::write;
