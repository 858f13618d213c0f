use crate::escapes::unescape;
use std::alloc::Global;
use std::fmt::Write;

/// An input, with the answers and the exit status that the input must give.
#[derive(Drop)]
pub struct Row<'a> {
    pub name: &'a str,
    pub input: Vec<u8>,
    pub text: Vec<u8>,
    pub status: u8,
    alloc: Global,
}

impl<'a> Row<'a> {
    fn new(alloc: Global, name: &'a str) -> Row<'a> {
        Row {
            name,
            input: Vec::new(alloc),
            text: Vec::new(alloc),
            status: 0,
            alloc,
        }
    }

    /// Reads a row. If the row is malformed, its expected text becomes one that no replay writes, so the row fails.
    pub fn of(alloc: Global, lines: &'a str) -> Row<'a> {
        let mut row = Row::new(alloc, "");
        let mut is_good = true;
        for line in lines.lines() {
            if let Some(name) = line.strip_prefix("row ") {
                row.name = name;
            } else if !line.starts_with('#') {
                is_good = row.add(line) && is_good;
            }
        }
        if !is_good {
            row.text.clear();
            unescape(&mut row.text, "the row is malformed");
        }
        row
    }

    /// Adds a line of the file to the row. Returns `false` if the line is malformed.
    fn add(&mut self, line: &str) -> bool {
        if let Some(rest) = line.strip_prefix("each ") {
            return self.add_each(rest);
        }
        match line.strip_prefix("status ") {
            Some(status) => {
                self.status = status.parse().unwrap_or(99);
                true
            }
            None => self.add_line(line),
        }
    }

    fn add_each(&mut self, rest: &str) -> bool {
        let (first, rest) = rest.split_once(' ').unwrap_or(("", ""));
        let (last, line) = rest.split_once(' ').unwrap_or(("", ""));
        let (Ok(first), Ok(last)) = (first.parse::<u64>(), last.parse::<u64>()) else {
            return false;
        };
        let mut is_good = true;
        for step in 0..=first.abs_diff(last) {
            let number = if first <= last {
                first.wrapping_add(step)
            } else {
                first.wrapping_sub(step)
            };
            is_good = self.add_numbered(line, number) && is_good;
        }
        is_good
    }

    fn add_numbered(&mut self, line: &str, number: u64) -> bool {
        let mut digits = String::new(self.alloc);
        let _ = write!(digits, "{number}");
        match line.replace(self.alloc, "#", digits.as_str()) {
            Ok(line) => self.add_line(line.as_str()),
            Err(_) => false,
        }
    }

    fn add_line(&mut self, line: &str) -> bool {
        let Some((input, answer)) = line.split_once("-> ") else {
            return self.add_input(line);
        };
        let is_good = self.add_input(input.trim_end_matches(' '))
            && unescape(&mut self.text, answer);
        let _ = self.text.push(b'\n');
        is_good
    }

    fn add_input(&mut self, line: &str) -> bool {
        if let Some(line) = line.strip_suffix("\\c") {
            return unescape(&mut self.input, line);
        }
        let is_good = unescape(&mut self.input, line);
        let _ = self.input.push(b'\n');
        is_good
    }
}
