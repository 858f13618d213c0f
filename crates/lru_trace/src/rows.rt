ghost use Rattle.std.specs.Prelude.{◌≡◌, ◌/◌, ◌<◌, ◌≤◌, ◌*◌, ◌^◌, max, ℕ, List, IfOk, OnOk, is_some, map, drop};
ghost use Rattle.std.specs.List.{All, fold};
ghost use Rattle.std.specs.Map.{keys_of};
ghost use Rattle.lru_trace.specs.Curves.{IsCurveOf, Has, HasAll, measure_in};
ghost use Rattle.lru_trace.specs.Rows.{best_in, expected_of, row_of, powers, points, with_size};
ghost use Rattle.lru_trace.specs.Svg.{missed_part};
ghost use Rattle.lru_trace.specs.Times.{KnowsRest};

use crate::best::Best;
use crate::curves::AnyCurve;
use crate::options::Measure;
use std::alloc::{AllocError, Global};

/// What the head of a report says about a trace.
#[derive(Clone, Copy)]
pub struct Counts {
    pub measure: Measure,
    pub references: u64,
    pub keys: usize,
    pub malformed: u64,
    pub skipped: Option<u64>,
}

/// The misses of MIN, and of MIN with bypass.
#[derive(Clone, Copy)]
pub struct BestMisses {
    pub min: usize,
    pub bypass: usize,
}

/// The expected number of references in the sample, and the number of misses in a cache of this size.
#[derive(Clone, Copy)]
pub struct Row {
    pub size: usize,
    pub expected: u128,
    pub misses: u64,
    pub best: Option<BestMisses>,
}

pub fn expected_of(bits: u32, counts: Counts) -> u128
    requires { bits ≤ 20 }
    ensures { result ≡ expected_of bits counts }
{
    (u128::from(counts.references) + u128::from(counts.skipped.unwrap_or(0))) >> bits
}

pub fn missed_part(missed: u64, expected: u128, scale: u64) -> u64
    ensures { result ≡ missed_part missed expected scale }
{
    let references = u128::from(missed).max(expected);
    if references == 0 {
        return 0;
    }
    let whole = u128::from(missed) * u128::from(scale) / references;
    whole as u64
}

fn best_in(best: &Option<Best>, size: usize) -> Result<Option<BestMisses>, AllocError>
    ensures { IfOk result (λ misses. (trace : List (List ℕ)) → KnowsRest trace best.now →
        misses ≡ best_in trace (is_some best.now) size) }
{
    let Some(best) = best else {
        return Ok(None);
    };
    let (min, bypass) = (best.min_misses(size)?, best.bypass_misses(size)?);
    Ok(Some(BestMisses { min, bypass }))
}

fn row_of(
    curve: &AnyCurve,
    best: &Option<Best>,
    bits: u32,
    expected: u128,
    size: usize,
) -> Result<Row, AllocError>
    requires few { bits ≤ 20 }
    requires has { Has curve.now (size / 2 ^ bits) }
    ensures { IfOk result (λ row. (warm trace : List (List ℕ × ℕ)) → IsCurveOf warm trace curve.now →
        KnowsRest (keys_of trace) best.now →
        row ≡ row_of (measure_in curve.now) warm trace bits expected (is_some best.now) size) }
{
    let scaled = size >> bits;
    let misses = curve.misses(scaled);
    let best = best_in(best, scaled)?;
    Ok(Row {
        size,
        expected,
        misses,
        best,
    })
}

pub fn rows_of(
    alloc: Global,
    curve: &AnyCurve,
    best: &Option<Best>,
    bits: u32,
    expected: u128,
    sizes: &[usize],
) -> Result<Vec<Row>, AllocError>
    requires few { bits ≤ 20 }
    requires has { HasAll curve.now bits sizes.now }
    ensures { IfOk result (λ rows. (warm trace : List (List ℕ × ℕ)) → IsCurveOf warm trace curve.now →
        KnowsRest (keys_of trace) best.now →
        rows.items ≡ map (row_of (measure_in curve.now) warm trace bits expected (is_some best.now)) sizes.now) }
{
    let mut rows = Vec::new(alloc);
    for size in sizes {
        rows.push(row_of(curve, best, bits, expected, *size)?)?;
    }
    Ok(rows)
}

/// Returns the size that the axis must reach. The axis ends at the first power of two that is at least this size.
pub fn end_of(needed: usize, bits: u32) -> u128
    requires { bits ≤ 20 }
    ensures { result ≡ max needed 1 * 2 ^ bits }
{
    (needed.max(1) as u128) << bits
}

pub fn powers(alloc: Global, most: u128) -> Result<Vec<usize>, AllocError>
    ensures all { IfOk result (λ all. all.items ≡ powers most 64 0) }
    ensures some { IfOk result (λ all. All (λ power. 0 < power) all.items) }
{
    let mut powers = Vec::new(alloc);
    for level in 0..usize::BITS {
        let power = 1_usize << level;
        powers.push(power)?;
        if most <= power as u128 {
            return Ok(powers);
        }
    }
    Ok(powers)
}

pub fn powers_in(axis: &[usize], bits: u32) -> &[usize]
    ensures { result.now ≡ drop bits axis.now }
{
    &axis[axis.len().min(bits as usize)..]
}

fn add_point(points: &mut Vec<usize>, size: usize) -> Result<(), AllocError>
    ensures { OnOk result (points.new.items ≡ with_size points.old.items size) }
{
    for at in 0..points.len() {
        if points[at] == size {
            return Ok(());
        }
        if points[at] > size {
            let Ok(_) = points.insert(at, size) else {
                return Err(AllocError);
            };
            return Ok(());
        }
    }
    points.push(size)?;
    Ok(())
}

fn add_points(points: &mut Vec<usize>, sizes: &[usize]) -> Result<(), AllocError>
    ensures { OnOk result (points.new.items ≡ fold with_size points.old.items sizes.now) }
{
    for size in sizes {
        add_point(points, *size)?;
    }
    Ok(())
}

pub fn points(alloc: Global, sizes: &[usize], powers: &[usize]) -> Result<Vec<usize>, AllocError>
    ensures { IfOk result (λ all. all.items ≡ points sizes.now powers.now) }
{
    let mut points = Vec::new(alloc);
    add_points(&mut points, powers)?;
    add_points(&mut points, sizes)?;
    Ok(points)
}
