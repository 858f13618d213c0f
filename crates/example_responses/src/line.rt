#[derive(Clone, Copy)]
pub enum Expiry {
    At(u64),
    /// The response expires after this time, as with `max-age` of HTTP's `Cache-Control`.
    MaxAge(u64),
}

pub enum Line<'a> {
    Now(u64),
    Host(&'a str, u64),
    /// The host, the path, the expiry and the body.
    Put(&'a str, &'a str, Expiry, &'a str),
    Get(&'a str, &'a str),
    Purge(&'a str, &'a str),
    PurgeBelow(&'a str, &'a str),
    Stats,
    Metrics,
}

fn number(word: &str) -> Option<u64> {
    word.parse().ok()
}

fn two(text: &str) -> (&str, &str) {
    text.split_once(' ').unwrap_or((text, ""))
}

fn expiry_of(word: &str) -> Option<Expiry> {
    match word.strip_prefix("max-age=") {
        Some(age) => Some(Expiry::MaxAge(number(age)?)),
        None => Some(Expiry::At(number(word)?)),
    }
}

pub fn parse(text: &str) -> Option<Line<'_>> {
    let (word, rest) = two(text);
    let (name, rest) = two(rest);
    let (path, rest) = two(rest);
    match word {
        "now" if path.is_empty() => Some(Line::Now(number(name)?)),
        "host" if path == "budget" => Some(Line::Host(name, number(rest)?)),
        "put" => {
            let (expiry, body) = two(rest);
            Some(Line::Put(name, path, expiry_of(expiry)?, body))
        }
        "get" | "purge" if path.is_empty() || !rest.is_empty() => None,
        "get" => Some(Line::Get(name, path)),
        "purge" => match path.strip_suffix('*') {
            Some(prefix) => Some(Line::PurgeBelow(name, prefix)),
            None => Some(Line::Purge(name, path)),
        },
        "stats" if name.is_empty() => Some(Line::Stats),
        "metrics" if name.is_empty() => Some(Line::Metrics),
        _ => None,
    }
}
