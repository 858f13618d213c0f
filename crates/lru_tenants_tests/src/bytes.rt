//! A cache of pages for many hosts.
ghost use Rattle.std.specs.Prelude.{◌≡◌, ◌+◌, ◌≤◌, sum_by, string_capacity};
ghost use Rattle.lru_limits.specs.Bytes.{both_own, block_bytes};
ghost use Rattle.lru_tenants.specs.Bytes.{taken};

use crate::callers::page_of;
use lru_tenants::{ByteTenants, TenantError};
use std::test::Fail;
use test_helpers::{all, check};

type Pages = ByteTenants<String, String, String>;

/// Returns how many pages were cached already.
fn serve(pages: &mut Pages, host: &str, paths: Vec<String>) -> Result<u64, TenantError>
    ensures { pages.new.limit ≡ pages.old.limit }
{
    let mut hits = 0u64;
    for path in paths {
        if pages.get(&host, &path)?.is_some() {
            hits = hits.wrapping_add(1);
            continue;
        }
        let page = page_of(&path)?;
        pages.put(&host, path, page)?;
    }
    Ok(hits)
}

/// Serves a host. Whatever `serve` returns, the cache takes at most its limit. This covers the table of hosts, and each
/// host's name, table, paths and pages.
fn serve_within(pages: &mut Pages, host: &str, paths: Vec<String>) -> Result<u64, TenantError>
    ensures { pages.new.table + sum_by (taken (λ name. block_bytes (string_capacity name))
        (both_own (λ path. block_bytes (string_capacity path)) (λ page. block_bytes (string_capacity page))))
        pages.new.tenants ≤ pages.old.limit }
{
    let served = serve(pages, host, paths);
    // Shows the prover the clause `within` of `len`.
    let _len = pages.len();
    served
}

#[test]
fn of_pages(rt: HostRuntime) -> Result<(), Fail> {
    let alloc = rt.alloc();
    let mut pages: Pages = ByteTenants::new(alloc, [1, 2, 3, 4], 8192);
    let paths = vec![in alloc;
        String::from_str(alloc, "/1")?,
        String::from_str(alloc, "/2")?,
    ]?;
    let again = vec![in alloc;
        String::from_str(alloc, "/2")?,
        String::from_str(alloc, "/3")?,
    ]?;
    let held = all!(
        pages.open(String::from_str(alloc, "a")?, 2048) == Ok(()),
        pages.open(String::from_str(alloc, "b")?, 8192) == Err(TenantError::OverTotal),
        serve_within(&mut pages, "a", paths) == Ok(0),
        serve_within(&mut pages, "a", again) == Ok(1)
    );
    check!(rt; held && pages.len() == 1);
    Ok(())
}
