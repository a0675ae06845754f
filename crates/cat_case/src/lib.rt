//! Cases as lines: what stands in a line of standard input, and how an answer is told.
//!
//! A line is fields parted by tabs: a subject and a question, as `tree depth`, and what is asked about. For each line one line is
//! written, with the answer or with the name of the fault. A line that begins with `#`, and an empty one, is written as it is, so that
//! `stdin` and `stdout` of a program that answers cases can be read side by side. `let`, a name and a text give the text that name in
//! the lines below. In a field `^0a` is the byte with these two hexadecimal digits, `^[name]` the text of that name, and `^(3 ab^)` is
//! `ababab`. In an answer LF, CR, TAB and `^` are such bytes, and a byte that stands a hundred times or more is told once, with how
//! often it stands.
//!
//! `cat_format_cases`, `cat_store_cases` and `cat_random` answer them, for the program `cat_cases`. It promises nothing.
#![tactic(auto)]

pub mod case;
pub mod lines;
pub mod shown;
