//! Functions with their own contracts, which call a cache and a pool.
ghost use Rattle.std.specs.Prelude.{◌≡◌, ℕ, nat_eq, string_eq, false};
ghost use Rattle.std.specs.Map.{lookup};
ghost use Rattle.lru_limits.specs.Texts.{names_text};
ghost use Rattle.lru_tenants.specs.Pool.{SparesOthers};

use lru_tenants::{ByCost, TenantCache, TenantError, TenantPool, calls_spare_other_tenants};
use schnellru::RandomState;
use std::test::Fail;
use test_helpers::check;

fn put_beside(
    cache: &mut TenantCache<u64, u64, u64>,
    name: &u64,
    key: u64,
    value: u64,
) -> Result<bool, TenantError>
    ensures { (other : ℕ) → nat_eq name.now other ≡ false →
        lookup (nat_eq other) cache.new.tenants ≡ lookup (nat_eq other) cache.old.tenants }
{
    cache.put(name, key, value)
}

pub fn page_of(path: &String) -> Result<String, TenantError> {
    match path.clone() {
        Ok(page) => Ok(page),
        Err(_) => Err(TenantError::Memory),
    }
}

/// Returns how many pages were cached already.
fn serve(
    pool: &mut TenantPool<String, String, String>,
    host: &str,
    paths: Vec<String>,
) -> Result<u64, TenantError>
    ensures { SparesOthers (λ limiter. limiter.cost) string_eq (names_text host.now) pool.old pool.new }
{
    calls_spare_other_tenants::<String, String, String, ByCost, RandomState>();
    let mut hits = 0u64;
    for path in paths {
        if pool.get(&host, &path)?.is_some() {
            hits = hits.wrapping_add(1);
            continue;
        }
        let page = page_of(&path)?;
        pool.put(&host, path, page)?;
    }
    Ok(hits)
}

#[test]
fn of_pages(rt: HostRuntime) -> Result<(), Fail> {
    let alloc = rt.alloc();
    let mut pool: TenantPool<String, String, String> = TenantPool::new(alloc, [1, 2, 3, 4], 8);
    let is_open = pool.open(String::from_str(alloc, "b")?, 4) == Ok(());
    let (first, again) = (
        String::from_str(alloc, "/1")?,
        String::from_str(alloc, "/1")?,
    );
    let hits = serve(&mut pool, "b", vec![in alloc; first, again]?);
    check!(rt; is_open && hits == Ok(1) && pool.cost(&"b") == Ok(2));
    Ok(())
}
