//! The picture of the curves, in tenths of a pixel.
ghost use Rattle.std.specs.Prelude.{◌≡◌, ◌≤◌, ◌<◌, ◌+◌, ◌*◌, ◌^◌, ◌++◌, OnOk, IfOk, length, flat_map};
ghost use Rattle.std.specs.List.{All};
ghost use Rattle.lru_trace.specs.Svg.{part, level_of, log_of, x_of, missed_by, y_of, point_text, label, legend, curve_text};
ghost use Rattle.lru_trace.specs.Svg.{tick_text, skipped_part, title_text, curves_text, svg_text};
ghost use Rattle.std.specs.String.{string_bytes};

use crate::options::Measure;
use crate::rows::{BestMisses, Counts, Row, missed_part};
use std::alloc::{AllocError, Global};

const LEFT: u128 = 900;

const WIDTH: u128 = 6400;

const RIGHT: u128 = LEFT + WIDTH;

const BOTTOM: u128 = 3900;

const HEIGHT: u64 = 3200;

const START: &str = "\
<svg xmlns='http://www.w3.org/2000/svg' viewBox='0 0 7800 4600' width='780' height='460'
font-family='sans-serif' font-size='140'>
<style>
path{fill:none;stroke-width:28;stroke-linejoin:round;stroke-linecap:round}
.grid{stroke:#ccc;stroke-width:8}.frame{stroke:#444;stroke-width:12}
.lru{stroke:#0b5394}.min{stroke:#cc4125;stroke-dasharray:90 60}.bypass{stroke:#38761d;stroke-dasharray:1 60}
.tick{text-anchor:middle}.part{text-anchor:end}
</style>
<rect width='7800' height='4600' fill='#fff'/>
<path class='grid' d='M900 700h6400M900 1340h6400M900 1980h6400M900 2620h6400M900 3260h6400'/>
<path class='frame' d='M900 700v3200h6400'/>
<text class='part' x='820' y='750'>100 %</text>
<text class='part' x='820' y='1390'>80 %</text>
<text class='part' x='820' y='2030'>60 %</text>
<text class='part' x='820' y='2670'>40 %</text>
<text class='part' x='820' y='3310'>20 %</text>
<text class='part' x='820' y='3950'>0 %</text>
<text class='tick' transform='translate(250 2300) rotate(-90)'>references that miss</text>
";

const PLACES: &str = "<text class='tick' x='4100' y='4400'>size of the cache, in entries</text>\n";

const BYTES: &str = "<text class='tick' x='4100' y='4400'>size of the cache, in bytes</text>\n";

const LRU: &str = "\
<path class='lru' d='M900 500h500'/><text x='1480' y='550'>LRU</text>
<path class='lru' d='M";

const MIN: &str = "\
<path class='min' d='M2300 500h500'/><text x='2880' y='550'>MIN</text>
<path class='min' d='M";

const BYPASS: &str = "\
<path class='bypass' d='M3700 500h500'/><text x='4280' y='550'>MIN with bypass</text>
<path class='bypass' d='M";

#[derive(Clone, Copy)]
pub enum Policy {
    Lru,
    Min,
    Bypass,
}

fn thousandths(parts: usize, whole: usize) -> usize
    requires some { 0 < whole }
    requires less { parts < whole }
    ensures value { result ≡ part parts whole 1000 }
    ensures most { result < 1000 }
{
    (parts as u128 * 1000 / whole as u128) as usize
}

fn level_of(size: usize) -> u32
    requires { 0 < size }
    ensures value { result ≡ level_of 63 size }
    ensures from { 2 ^ result ≤ size }
    ensures below { size < 2 * 2 ^ result }
    ensures few { result < 64 }
{
    size.ilog2()
}

fn log_of(size: usize) -> u128
    requires { 0 < size }
    ensures value { result ≡ log_of size }
    ensures most { result < 66000 }
{
    let level = level_of(size);
    let power = 1_usize << level;
    let behind = thousandths(size - power, power);
    let above = behind * (1000 - behind) * 353 / 1_000_000;
    (1000 * level as usize + behind + above) as u128
}

fn x_of(octaves: u128, size: usize) -> u128
    requires some { 0 < size }
    requires axis { 0 < octaves }
    requires fits { octaves < 2 ^ 64 }
    ensures { result ≡ x_of octaves size }
{
    LEFT + log_of(size) * WIDTH / (1000 * octaves)
}

fn missed_by(policy: Policy, row: Row) -> u64
    ensures { result ≡ missed_by policy row }
{
    match (policy, row.best) {
        (Policy::Lru, _) => row.misses,
        (Policy::Min, Some(best)) => best.min as u64,
        (Policy::Bypass, Some(best)) => best.bypass as u64,
        (Policy::Min | Policy::Bypass, None) => 0,
    }
}

fn y_of(policy: Policy, row: Row) -> u128
    ensures { result ≡ y_of policy row }
{
    let part = missed_part(missed_by(policy, row), row.expected, HEIGHT);
    BOTTOM.saturating_sub(u128::from(part))
}

fn add_point(
    alloc: Global,
    svg: &mut Vec<u8>,
    octaves: u128,
    policy: Policy,
    row: Row,
) -> Result<(), AllocError>
    requires axis { 0 < octaves }
    requires fits { octaves < 2 ^ 64 }
    ensures { OnOk result (svg.new.items ≡ svg.old.items ++ point_text octaves policy row) }
{
    if row.size == 0 {
        return Ok(());
    }
    let (x, y) = (x_of(octaves, row.size), y_of(policy, row));
    if x <= RIGHT {
        let text = format!(in alloc; "{x} {y} ")?;
        svg.extend_from_slice(text.as_bytes())?;
    }
    Ok(())
}

fn label(measure: Measure) -> &'static str
    ensures { result.now ≡ label measure }
{
    match measure {
        Measure::Places | Measure::PlacesWithDeletes => PLACES,
        Measure::Bytes => BYTES,
    }
}

fn legend(policy: Policy) -> &'static str
    ensures { result.now ≡ legend policy }
{
    match policy {
        Policy::Lru => LRU,
        Policy::Min => MIN,
        Policy::Bypass => BYPASS,
    }
}

fn add_curve(
    alloc: Global,
    svg: &mut Vec<u8>,
    octaves: u128,
    rows: &[Row],
    policy: Policy,
) -> Result<(), AllocError>
    requires axis { 0 < octaves }
    requires fits { octaves < 2 ^ 64 }
    ensures { OnOk result (svg.new.items ≡ svg.old.items ++ curve_text octaves rows.now policy) }
{
    svg.extend_from_slice(legend(policy).as_bytes())?;
    for row in rows {
        add_point(alloc, svg, octaves, policy, *row)?;
    }
    svg.extend_from_slice(b"h0'/>\n")?;
    Ok(())
}

fn add_tick(alloc: Global, svg: &mut Vec<u8>, octaves: u128, power: usize) -> Result<(), AllocError>
    requires axis { 0 < octaves }
    requires fits { octaves < 2 ^ 64 }
    requires some { 0 < power }
    ensures { OnOk result (svg.new.items ≡ svg.old.items ++ tick_text octaves power) }
{
    if u128::from(level_of(power)) % (1 + octaves / 9) != 0 {
        return Ok(());
    }
    let x = x_of(octaves, power);
    let text = format!(in alloc;
        "<path class='grid' d='M{x} 700v3200'/><text class='tick' x='{x}' y='4080'>{power}</text>\n"
    )?;
    svg.extend_from_slice(text.as_bytes())?;
    Ok(())
}

fn add_ticks(
    alloc: Global,
    svg: &mut Vec<u8>,
    octaves: u128,
    powers: &[usize],
) -> Result<(), AllocError>
    requires axis { 0 < octaves }
    requires fits { octaves < 2 ^ 64 }
    requires some { All (λ power. 0 < power) powers.now }
    ensures { OnOk result (svg.new.items ≡ svg.old.items ++ flat_map (tick_text octaves) powers.now) }
{
    for power in powers {
        add_tick(alloc, svg, octaves, *power)?;
    }
    Ok(())
}

fn add_curves(
    alloc: Global,
    svg: &mut Vec<u8>,
    best: bool,
    octaves: u128,
    rows: &[Row],
) -> Result<(), AllocError>
    requires axis { 0 < octaves }
    requires fits { octaves < 2 ^ 64 }
    ensures { OnOk result (svg.new.items ≡ svg.old.items ++ curves_text best octaves rows.now) }
{
    add_curve(alloc, svg, octaves, rows, Policy::Lru)?;
    if !best {
        return Ok(());
    }
    add_curve(alloc, svg, octaves, rows, Policy::Min)?;
    add_curve(alloc, svg, octaves, rows, Policy::Bypass)?;
    Ok(())
}

fn skipped_part(alloc: Global, skipped: Option<u64>) -> Result<String, AllocError>
    ensures { IfOk result (λ text. string_bytes text ≡ skipped_part skipped) }
{
    match skipped {
        Some(skipped) => format!(in alloc; ", {skipped} skipped"),
        None => Ok(String::new(alloc)),
    }
}

fn title_text(alloc: Global, counts: Counts) -> Result<String, AllocError>
    ensures { IfOk result (λ text. string_bytes text ≡ title_text counts) }
{
    let (references, keys, malformed) = (counts.references, counts.keys, counts.malformed);
    let skipped = skipped_part(alloc, counts.skipped)?;
    format!(in alloc;
        "<text x='900' y='290'>{references} references to {keys} keys, {malformed} malformed lines{skipped}</text>\n"
    )
}

pub fn svg_of(
    alloc: Global,
    counts: Counts,
    best: bool,
    axis: &[usize],
    rows: &[Row],
) -> Result<Vec<u8>, AllocError>
    requires { All (λ power. 0 < power) axis.now }
    ensures { IfOk result (λ svg. svg.items ≡ svg_text counts best axis.now rows.now) }
{
    let octaves = axis.len().saturating_sub(1).max(1) as u128;
    let title = title_text(alloc, counts)?;
    let mut svg = Vec::from_slice(alloc, START.as_bytes())?;
    svg.extend_from_slice(label(counts.measure).as_bytes())?;
    svg.extend_from_slice(title.as_bytes())?;
    add_ticks(alloc, &mut svg, octaves, axis)?;
    add_curves(alloc, &mut svg, best, octaves, rows)?;
    svg.extend_from_slice(b"</svg>\n")?;
    Ok(svg)
}
