//! Writes a curve: as text for people, csv for programs, or a picture.
ghost use Rattle.std.specs.Prelude.{◌≡◌, ◌≤◌, ◌+◌, ◌^◌, ◌<◌, ◌++◌, ℕ, List, OnOk, IfOk, is_some, replicate, flat_map, map, false};
ghost use Rattle.std.specs.String.{string_bytes};
ghost use Rattle.std.specs.Map.{keys_of};
ghost use Rattle.lru_trace.specs.Curves.{IsCurveOf, Fits, HasAll, measure_in};
ghost use Rattle.lru_trace.specs.Report.{ratio_text, best_text, measure_text, size_text, bar_text, text_of};
ghost use Rattle.lru_trace.specs.References.{bits_of, wants_best};
ghost use Rattle.lru_trace.specs.Rows.{expected_of, row_of, points};
ghost use Rattle.lru_trace.specs.Times.{KnowsRest};
ghost use Rattle.lru_trace.specs.Report.{csv_best, csv_line, csv_head, csv_of, skipped_text, head_text, counts_of, written};

use crate::best::Best;
use crate::curves::AnyCurve;
use crate::lines::Others;
use crate::options::{Form, Measure, Options};
use crate::rows::{
    BestMisses, Counts, Row, end_of, expected_of, missed_part, points, powers, powers_in, rows_of,
};
use crate::svg::svg_of;
use std::alloc::{AllocError, Global};

const WIDTH: u64 = 50;

fn add_copies(report: &mut Vec<u8>, byte: u8, copies: u64) -> Result<(), AllocError>
    ensures { OnOk result (report.new.items ≡ report.old.items ++ replicate copies byte) }
{
    for _ in 0..copies {
        report.push(byte)?;
    }
    Ok(())
}

fn ratio(alloc: Global, n: u64) -> Result<String, AllocError>
    ensures { IfOk result (λ text. string_bytes text ≡ ratio_text n) }
{
    let (whole, first, second, third, fourth) = (
        n / 10_000,
        n / 1000 % 10,
        n / 100 % 10,
        n / 10 % 10,
        n % 10,
    );
    format!(in alloc; "{whole}.{first}{second}{third}{fourth}")
}

fn add_best(alloc: Global, report: &mut Vec<u8>, best: Option<BestMisses>) -> Result<(), AllocError>
    ensures { OnOk result (report.new.items ≡ report.old.items ++ best_text best) }
{
    if let Some(best) = best {
        let (min, bypass) = (best.min, best.bypass);
        let text = format!(in alloc; " min {min} bypass {bypass}")?;
        report.extend_from_slice(text.as_bytes())?;
    }
    Ok(())
}

fn measure_text(measure: Measure) -> &'static str
    ensures { result.now ≡ measure_text measure }
{
    match measure {
        Measure::Places | Measure::PlacesWithDeletes => "places ",
        Measure::Bytes => "bytes ",
    }
}

fn add_size(
    alloc: Global,
    report: &mut Vec<u8>,
    measure: Measure,
    row: Row,
) -> Result<(), AllocError>
    ensures { OnOk result (report.new.items ≡ report.old.items ++ size_text measure row) }
{
    let (size, misses) = (row.size, row.misses);
    let hits = row.expected.saturating_sub(u128::from(misses));
    let ratio = ratio(alloc, missed_part(misses, row.expected, 10_000))?;
    let text = format!(in alloc; "{size} hits {hits} misses {misses} ratio {ratio}")?;
    report.extend_from_slice(measure_text(measure).as_bytes())?;
    report.extend_from_slice(text.as_bytes())?;
    add_best(alloc, report, row.best)?;
    report.push(b'\n')?;
    Ok(())
}

fn add_bar(alloc: Global, report: &mut Vec<u8>, row: Row) -> Result<(), AllocError>
    ensures { OnOk result (report.new.items ≡ report.old.items ++ bar_text row) }
{
    let size = row.size;
    let number = format!(in alloc; "{size}")?;
    add_copies(report, b' ', 12_usize.saturating_sub(number.len()) as u64)?;
    report.extend_from_slice(number.as_bytes())?;
    report.extend_from_slice(b" |")?;
    let filled = missed_part(row.misses, row.expected, WIDTH);
    add_copies(report, b'#', filled)?;
    report.push(b'\n')?;
    Ok(())
}

fn add_sizes(
    alloc: Global,
    report: &mut Vec<u8>,
    measure: Measure,
    rows: &[Row],
) -> Result<(), AllocError>
    ensures { OnOk result (report.new.items ≡ report.old.items ++ flat_map (size_text measure) rows.now) }
{
    for row in rows {
        add_size(alloc, report, measure, *row)?;
    }
    Ok(())
}

fn add_bars(alloc: Global, report: &mut Vec<u8>, rows: &[Row]) -> Result<(), AllocError>
    ensures { OnOk result (report.new.items ≡ report.old.items ++ flat_map bar_text rows.now) }
{
    for row in rows {
        add_bar(alloc, report, *row)?;
    }
    Ok(())
}

fn skipped_text(alloc: Global, skipped: Option<u64>) -> Result<String, AllocError>
    ensures { IfOk result (λ text. string_bytes text ≡ skipped_text skipped) }
{
    match skipped {
        Some(skipped) => format!(in alloc; " skipped {skipped}"),
        None => Ok(String::new(alloc)),
    }
}

fn head_text(alloc: Global, counts: Counts) -> Result<String, AllocError>
    ensures { IfOk result (λ text. string_bytes text ≡ head_text counts) }
{
    let (references, keys, malformed) = (counts.references, counts.keys, counts.malformed);
    let skipped = skipped_text(alloc, counts.skipped)?;
    format!(in alloc; "references {references} keys {keys} malformed {malformed}{skipped}\n")
}

fn text_of(
    alloc: Global,
    counts: Counts,
    named: &[Row],
    bars: &[Row],
) -> Result<Vec<u8>, AllocError>
    ensures { IfOk result (λ report. report.items ≡ text_of counts named.now bars.now) }
{
    let head = head_text(alloc, counts)?;
    let mut report = Vec::from_slice(alloc, head.as_bytes())?;
    add_sizes(alloc, &mut report, counts.measure, named)?;
    add_bars(alloc, &mut report, bars)?;
    Ok(report)
}

fn add_csv_best(
    alloc: Global,
    csv: &mut Vec<u8>,
    best: Option<BestMisses>,
) -> Result<(), AllocError>
    ensures { OnOk result (csv.new.items ≡ csv.old.items ++ csv_best best) }
{
    if let Some(best) = best {
        let (min, bypass) = (best.min, best.bypass);
        let text = format!(in alloc; ",{min},{bypass}")?;
        csv.extend_from_slice(text.as_bytes())?;
    }
    Ok(())
}

fn add_csv_line(alloc: Global, csv: &mut Vec<u8>, row: Row) -> Result<(), AllocError>
    ensures { OnOk result (csv.new.items ≡ csv.old.items ++ csv_line row) }
{
    let (size, misses) = (row.size, row.misses);
    let hits = row.expected.saturating_sub(u128::from(misses));
    let ratio = ratio(alloc, missed_part(misses, row.expected, 10_000))?;
    let text = format!(in alloc; "{size},{hits},{misses},{ratio}")?;
    csv.extend_from_slice(text.as_bytes())?;
    add_csv_best(alloc, csv, row.best)?;
    csv.push(b'\n')?;
    Ok(())
}

fn csv_head(best: bool) -> &'static str
    ensures { result.now ≡ csv_head best }
{
    if best {
        return "size,hits,misses,ratio,min,bypass\n";
    }
    "size,hits,misses,ratio\n"
}

fn csv_of(alloc: Global, best: bool, rows: &[Row]) -> Result<Vec<u8>, AllocError>
    ensures { IfOk result (λ csv. csv.items ≡ csv_of best rows.now) }
{
    let mut csv = Vec::from_slice(alloc, csv_head(best).as_bytes())?;
    for row in rows {
        add_csv_line(alloc, &mut csv, *row)?;
    }
    Ok(csv)
}

fn text_rows(
    alloc: Global,
    curve: &AnyCurve,
    counts: Counts,
    best: &Option<Best>,
    bits: u32,
    sizes: &[usize],
    powers: &[usize],
) -> Result<Vec<u8>, AllocError>
    requires few { bits ≤ 20 }
    requires sizes { HasAll curve.now bits sizes.now }
    requires powers { HasAll curve.now bits powers.now }
    ensures { IfOk result (λ text. (warm trace : List (List ℕ × ℕ)) → IsCurveOf warm trace curve.now →
        KnowsRest (keys_of trace) best.now →
        text.items ≡ text_of counts
        (map (row_of (measure_in curve.now) warm trace bits (expected_of bits counts) (is_some best.now)) sizes.now)
        (map (row_of (measure_in curve.now) warm trace bits (expected_of bits counts) false) powers.now)) }
{
    let expected = expected_of(bits, counts);
    let rows = rows_of(alloc, curve, best, bits, expected, sizes)?;
    let bars = rows_of(alloc, curve, &None, bits, expected, powers)?;
    let text = text_of(alloc, counts, &rows, &bars)?;
    Ok(text)
}

fn point_rows(
    alloc: Global,
    curve: &AnyCurve,
    counts: Counts,
    best: &Option<Best>,
    bits: u32,
    sizes: &[usize],
    powers: &[usize],
) -> Result<Vec<Row>, AllocError>
    requires few { bits ≤ 20 }
    requires sizes { HasAll curve.now bits sizes.now }
    requires powers { HasAll curve.now bits powers.now }
    ensures { IfOk result (λ rows. (warm trace : List (List ℕ × ℕ)) → IsCurveOf warm trace curve.now →
        KnowsRest (keys_of trace) best.now →
        rows.items ≡ map (row_of (measure_in curve.now) warm trace bits (expected_of bits counts) (is_some best.now))
        (points sizes.now powers.now)) }
{
    let points = points(alloc, sizes, powers)?;
    let rows = rows_of(alloc, curve, best, bits, expected_of(bits, counts), &points)?;
    Ok(rows)
}

fn counts_of(bits: u32, curve: &AnyCurve, others: Others) -> Counts
    ensures { (warm trace : List (List ℕ × ℕ)) → IsCurveOf warm trace curve.now →
        result ≡ counts_of (measure_in curve.now) bits warm trace others }
{
    Counts {
        measure: curve.measure(),
        references: curve.references(),
        keys: curve.keys(),
        malformed: others.malformed,
        skipped: if bits == 0 {
            None
        } else {
            Some(others.skipped)
        },
    }
}

pub fn report_of(
    alloc: Global,
    options: Options,
    curve: &AnyCurve,
    others: Others,
    sizes: &[usize],
) -> Result<Vec<u8>, AllocError>
    requires { Fits options sizes.now curve.now }
    ensures { IfOk result (λ report. (warm trace : List (List ℕ × ℕ)) → IsCurveOf warm trace curve.now →
        report.items ≡ written options warm trace sizes.now others) }
{
    let bits = options.bits();
    let counts = counts_of(bits, curve, others);
    let axis = powers(alloc, end_of(curve.needed(), bits))?;
    let powers = powers_in(&axis, bits);
    let best = curve.best()?;
    match options.form {
        Form::Text => {
            let text = text_rows(alloc, curve, counts, &best, bits, sizes, powers)?;
            Ok(text)
        }
        Form::Csv => {
            let rows = point_rows(alloc, curve, counts, &best, bits, sizes, powers)?;
            let csv = csv_of(alloc, options.policies.best(), &rows)?;
            Ok(csv)
        }
        Form::Svg => {
            let rows = point_rows(alloc, curve, counts, &best, bits, sizes, powers)?;
            let svg = svg_of(alloc, counts, options.policies.best(), &axis, &rows)?;
            Ok(svg)
        }
    }
}
