//! Lines as cases.
use cat_tree::read::{TreeFault, read};
use cat_tree::tree::Tree;
use std::alloc::{AllocError, Global};

/// A name, and the text that it stands for.
#[derive(Drop)]
pub struct Named {
    pub name: String,
    pub text: Vec<u8>,
}

/// The texts that names stand for; the last one counts that a name is given to.
pub type Names = Vec<Named>;

/// The fields of a line.
#[derive(Drop)]
pub struct Case {
    fields: Vec<Vec<u8>>,
}

// Puts what stands from a place on behind itself, until it stands there so often.
fn repeat(alloc: Global, out: &mut Vec<u8>, from: usize, count: u32) -> Result<(), AllocError> {
    let Some((_, piece)) = out.as_slice().split_at_checked(from) else {
        return Ok(());
    };
    let mut piece = piece.to_vec(alloc)?;
    let mut more = count.saturating_sub(1);
    for _ in 0..u32::BITS {
        if more % 2 == 1 {
            out.extend_from_slice(piece.as_slice())?;
        }
        more /= 2;
        if more == 0 {
            break;
        }
        let twice = piece.as_slice().to_vec(alloc)?;
        piece.extend_from_slice(twice.as_slice())?;
    }
    Ok(())
}

// Where the piece begins that is repeated, and how often it stands.
#[derive(Drop)]
struct Repeated {
    from: usize,
    count: u32,
}

// The text of a name, which is empty where none has it.
fn text_of<'a>(names: &'a [Named], name: &str) -> &'a [u8] {
    let mut text: &[u8] = &[];
    for named in names {
        if named.name.as_str() == name {
            text = named.text.as_slice();
        }
    }
    text
}

// Puts the text of a name, which `]` ends, and what follows it behind what stands so far.
fn push_named(out: &mut Vec<u8>, names: &Names, piece: &str) -> Result<(), AllocError> {
    let (name, rest) = piece.split_once(']').unwrap_or((piece, ""));
    out.extend_from_slice(text_of(names.as_slice(), name))?;
    out.extend_from_slice(rest.as_bytes())
}

// Puts the byte of two hexadecimal digits, and what follows them, behind what stands so far.
fn push_byte(out: &mut Vec<u8>, piece: &str) -> Result<(), AllocError> {
    let (digits, rest) = piece.split_at_checked(2).unwrap_or(("", piece));
    if let Ok(byte) = u8::from_str_radix(digits, 16) {
        out.push(byte)?;
    }
    out.extend_from_slice(rest.as_bytes())
}

// Begins a piece that is repeated as often as the number before the space says.
fn begin(out: &mut Vec<u8>, repeated: &mut Repeated, piece: &str) -> Result<(), AllocError> {
    let (times, rest) = piece.split_once(' ').unwrap_or((piece, ""));
    repeated.from = out.len();
    repeated.count = times.parse::<u32>().unwrap_or(1);
    out.extend_from_slice(rest.as_bytes())
}

// Puts what stands behind a `^` behind what stands so far.
fn push_piece(
    alloc: Global,
    out: &mut Vec<u8>,
    repeated: &mut Repeated,
    names: &Names,
    piece: &str,
) -> Result<(), AllocError> {
    match piece.split_at_checked(1) {
        Some(("[", piece)) => push_named(out, names, piece),
        Some(("(", piece)) => begin(out, repeated, piece),
        Some((")", rest)) => {
            repeat(alloc, out, repeated.from, repeated.count)?;
            out.extend_from_slice(rest.as_bytes())
        }
        _ => push_byte(out, piece),
    }
}

// Puts what a field stands for behind what stands so far.
fn push_meant(
    alloc: Global,
    out: &mut Vec<u8>,
    names: &Names,
    field: &str,
) -> Result<(), AllocError> {
    let (first, rest) = field.split_once('^').unwrap_or((field, ""));
    out.extend_from_slice(first.as_bytes())?;
    let mut repeated = Repeated { from: 0, count: 1 };
    for piece in rest.split('^') {
        push_piece(alloc, out, &mut repeated, names, piece)?;
    }
    Ok(())
}

// Puts the bytes that a field stands for behind the fields so far.
fn push_field(
    alloc: Global,
    fields: &mut Vec<Vec<u8>>,
    names: &Names,
    field: &str,
) -> Result<(), AllocError> {
    let mut out = Vec::new(alloc);
    push_meant(alloc, &mut out, names, field)?;
    fields.push(out)?;
    Ok(())
}

impl Case {
    /// The case of a line.
    pub fn read(alloc: Global, names: &Names, line: &str) -> Result<Case, AllocError> {
        let mut fields = Vec::new(alloc);
        for field in line.split('\t') {
            push_field(alloc, &mut fields, names, field)?;
        }
        Ok(Case { fields })
    }

    /// The subject and the question.
    pub fn asked(&self) -> (&str, &str) {
        let asked = self.text(0);
        asked.split_once(' ').unwrap_or((asked, ""))
    }

    /// Whether the line gives a name to a text.
    pub fn names_text(&self) -> bool {
        self.text(0) == "let"
    }

    /// How many fields stand behind the question.
    pub fn count(&self) -> usize {
        self.fields.len().saturating_sub(1)
    }

    /// The bytes of the field at this place, counted from the question, and none where no field is.
    pub fn bytes(&self, place: usize) -> &[u8] {
        match self.fields.get(place) {
            Some(field) => field.as_slice(),
            None => &[],
        }
    }

    /// The text of the field at this place, which is empty where it isn't UTF-8.
    pub fn text(&self, place: usize) -> &str {
        str::from_utf8(self.bytes(place)).unwrap_or("")
    }

    /// The text of the field behind so many others and the question.
    pub fn step(&self, before: usize) -> &str {
        self.text(before.saturating_add(1))
    }

    /// The number in the field at this place, and 0 where there is none.
    pub fn number(&self, place: usize) -> u64 {
        self.text(place).parse::<u64>().unwrap_or(0)
    }

    /// The tree of the text in the field at this place.
    pub fn tree(&self, alloc: Global, place: usize) -> Result<Tree, TreeFault> {
        read(alloc, self.bytes(place))
    }
}
