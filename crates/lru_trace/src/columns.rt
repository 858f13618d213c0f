ghost use Rattle.std.specs.Prelude.{◌≡◌};
ghost use Rattle.lru_trace.specs.Lines.{before, behind, cell, text_in};

use crate::options::Column;

fn before(line: &[u8], separator: u8) -> &[u8]
    ensures { result.now ≡ before separator line.now }
{
    for at in 0..line.len() {
        if line[at] == separator {
            return &line[..at];
        }
    }
    line
}

fn behind(line: &[u8], separator: u8) -> &[u8]
    ensures { result.now ≡ behind separator line.now }
{
    for at in 0..line.len() {
        if line[at] == separator {
            return &line[at + 1..];
        }
    }
    b""
}

pub fn cell(line: &[u8], column: Column) -> &[u8]
    ensures { result.now ≡ cell column.separator column.index line.now }
{
    let mut rest = line;
    for _ in 0..column.index {
        if rest.is_empty() {
            return rest;
        }
        rest = behind(rest, column.separator);
    }
    before(rest, column.separator)
}

pub fn text_in(line: &[u8], column: Option<Column>) -> &[u8]
    ensures { result.now ≡ text_in column line.now }
{
    match column {
        Some(column) => cell(line, column),
        None => line,
    }
}
