//! A cache of responses that expire, with counts for each host.
ghost use Rattle.std.specs.Prelude.{◌≡◌, ◌<◌, ◌-◌, true, is_some, nat_eq, Err, None, Some, IfOk, OnErr, IfSome};
ghost use Rattle.std.specs.Prelude.{string_bytes, string_eq, vec_len};
ghost use Rattle.std.specs.List.{starts_with};
ghost use Rattle.lru_limits.specs.Texts.{names_text};
ghost use Rattle.lru_model.specs.Lists.{lookup};
ghost use Rattle.lru_tenants.specs.Cache.{On};
ghost use Rattle.lru_tenants.specs.TenantRuns.{read_of, OfOpen, IfOpen};
ghost use Rattle.lru_tenants.specs.declared.error.TenantError.TheVariants.{Memory};
ghost use Rattle.example_responses.specs.LookUps.{fresh_at, Copies, DropsStale, GetsCopy};
ghost use Rattle.example_responses.specs.Purges.{is_below, PurgesBelow};
ghost use Rattle.example_responses.specs.Puts.{PutsPath, others};

use lru_limits::{Budgeted, Insertion, KeyHasher, Limiter};
use lru_tenants::{ByWeight, Costed, Counting, Counts, TenantCache, TenantError};
use schnellru::RandomState;
use std::alloc::{AllocError, Global};

/// What an entry costs in addition to the bytes of its path and of its response.
const OVERHEAD: u64 = 64;

/// A response, which is stale from the time `expires` on.
#[derive(Drop)]
pub struct Response {
    pub body: Vec<u8>,
    pub expires: u64,
}

impl Costed for Response {
    ghost cost = { λ response. vec_len response.body };

    fn cost(&self) -> u64 {
        self.body.len() as u64
    }
}

type Responses = TenantCache<String, String, Response, Counting<ByWeight<OVERHEAD>>>;

fn is_fresh(entries: &Responses, host: &str, path: &str, now: u64) -> Result<bool, TenantError>
    ensures { result ≡ read_of (λ map. is_some (fresh_at now (lookup (names_text path.now) map.pairs)))
        (lookup (names_text host.now) entries.now.tenants) }
{
    match entries.peek(&host, &path)? {
        Some(response) => Ok(now < response.expires),
        None => Ok(false),
    }
}

fn drop_stale(entries: &mut Responses, host: &str, path: &str, now: u64) -> Result<(), TenantError>
    ensures { On string_eq (names_text host.now) (OfOpen (DropsStale (names_text path.now) now))
        entries.old result entries.new }
{
    let _len = entries.len();
    if is_fresh(entries, host, path, now)? {
        return Ok(());
    }
    entries.remove(&host, &path)?;
    Ok(())
}

fn is_below(path: &String, prefix: &str) -> bool
    ensures { result ≡ is_below prefix.now path.now }
{
    path.as_str().starts_with(prefix)
}

fn owned(alloc: Global, text: &str) -> Result<String, TenantError>
    ensures copy { IfOk result (λ copy. string_bytes copy ≡ text.now) }
    ensures memory { OnErr result (result ≡ Err Memory) }
{
    match String::from_str(alloc, text) {
        Ok(text) => Ok(text),
        Err(_) => Err(TenantError::Memory),
    }
}

fn copy(alloc: Global, response: &Response) -> Result<Option<Response>, TenantError>
    ensures { Copies (Some response.now) result }
{
    match Vec::from_slice(alloc, &response.body) {
        Ok(body) => Ok(Some(Response {
            body,
            expires: response.expires,
        })),
        Err(_) => Err(TenantError::Memory),
    }
}

fn put_path(
    alloc: Global,
    entries: &mut Responses,
    host: &str,
    path: &str,
    response: Response,
) -> Result<bool, TenantError>
    ensures { PutsPath ⟦<Counting<ByWeight<OVERHEAD>> as Limiter<String, Response>>⟧.rules
        ⟦<Counting<ByWeight<OVERHEAD>> as Insertion<String, Response, String>>⟧.offers
        ⟦<Counting<ByWeight<OVERHEAD>> as Budgeted<String, Response>>⟧.budget_of
        ⟦<RandomState as KeyHasher<String>>⟧.hash_of string_eq (names_text host.now) path.now response
        entries.old result entries.new }
{
    let path = owned(alloc, path)?;
    entries.put_counted(&host, path, response)
}

#[derive(Drop)]
pub struct ResponseCache {
    alloc: Global,
    entries: Responses,
}

impl ResponseCache {
    pub fn new(alloc: Global) -> ResponseCache {
        ResponseCache {
            alloc,
            entries: TenantCache::with_hasher(alloc, RandomState::with_seeds([1, 2, 3, 4])),
        }
    }

    pub fn hosts(&self) -> Result<Vec<&str>, AllocError> {
        let mut hosts = Vec::new(self.alloc);
        for host in self.entries.names() {
            hosts.push(host.as_str())?;
        }
        hosts.sort_unstable();
        Ok(hosts)
    }

    pub fn counts(&self, host: &str) -> Counts {
        self.entries.counts(&host).unwrap_or_default()
    }

    fn count_evicted(&mut self, host: &str, evicted: u64) -> Result<(), TenantError> {
        let mut counts = self.entries.counts(&host)?;
        counts.evictions = counts.evictions.saturating_add(evicted);
        self.entries.set_counts(&host, counts)
    }

    /// Opens a host, or sets its budget. Returns `host opened` or `budget set`, and how many entries were evicted.
    pub fn set_host(
        &mut self,
        host: &str,
        budget: u64,
    ) -> Result<(&'static str, u64), TenantError> {
        let (before, _) = self.size(host);
        if self.entries.set_budget(&host, budget).is_err() {
            self.entries.open(owned(self.alloc, host)?, budget)?;
            return Ok(("host opened", 0));
        }
        let (after, _) = self.size(host);
        let evicted = before.saturating_sub(after) as u64;
        self.count_evicted(host, evicted)?;
        Ok(("budget set", evicted))
    }

    fn others(&self, host: &str, path: &str) -> u64
        ensures { result ≡ others (names_text path.now) (lookup (names_text host.now) self.now.entries.tenants) }
    {
        match (
            self.entries.entries(&host),
            self.entries.contains(&host, &path),
        ) {
            (Ok(entries), Ok(there)) => entries.saturating_sub(there as usize) as u64,
            _ => 0,
        }
    }

    /// Stores a response. Returns whether the host has the response afterwards, and how many other responses were
    /// evicted.
    pub fn put(
        &mut self,
        host: &str,
        path: &str,
        response: Response,
    ) -> (Result<bool, TenantError>, u64)
        ensures puts { PutsPath ⟦<Counting<ByWeight<OVERHEAD>> as Limiter<String, Response>>⟧.rules
            ⟦<Counting<ByWeight<OVERHEAD>> as Insertion<String, Response, String>>⟧.offers
            ⟦<Counting<ByWeight<OVERHEAD>> as Budgeted<String, Response>>⟧.budget_of
            ⟦<RandomState as KeyHasher<String>>⟧.hash_of string_eq (names_text host.now) path.now response
            self.old.entries result.0 self.new.entries }
        ensures evicted { result.1 ≡ others (names_text path.now) (lookup (names_text host.now) self.old.entries.tenants)
            - others (names_text path.now) (lookup (names_text host.now) self.new.entries.tenants) }
    {
        let before = self.others(host, path);
        let stored = put_path(self.alloc, &mut self.entries, host, path, response);
        let evicted = before.saturating_sub(self.others(host, path));
        (stored, evicted)
    }

    /// If the path's response is fresh, returns a copy and counts a hit. Otherwise counts a miss. If a stale response
    /// is stored, removes it.
    pub fn get(&mut self, host: &str, path: &str, now: u64) -> Result<Option<Response>, TenantError>
        ensures fresh { IfOk result (λ found. IfSome found (λ response. now < response.expires)) }
        ensures gets { On string_eq (names_text host.now) (OfOpen (GetsCopy (names_text path.now) now))
            self.old.entries result self.new.entries }
    {
        drop_stale(&mut self.entries, host, path, now)?;
        match self.entries.get_counted(&host, &path)? {
            Some(response) => copy(self.alloc, response),
            None => Ok(None),
        }
    }

    pub fn purge(&mut self, host: &str, path: &str) -> Result<bool, TenantError> {
        Ok(self.entries.remove(&host, &path)?.is_some())
    }

    /// Removes a host's responses for the paths that begin with the prefix.
    pub fn purge_below(&mut self, host: &str, prefix: &str) -> Result<(), TenantError>
        ensures { On string_eq (names_text host.now) (IfOpen (PurgesBelow prefix.now))
            self.old.entries result self.new.entries }
    {
        self.entries
            .retain(&host, |path, _| !is_below(path, prefix))
    }

    pub fn size(&self, host: &str) -> (usize, u64) {
        match (self.entries.entries(&host), self.entries.cost(&host)) {
            (Ok(entries), Ok(cost)) => (entries, cost),
            _ => (0, 0),
        }
    }
}

/// Shows that a path has no response after a purge of its prefix.
fn get_purged(
    cache: &mut ResponseCache,
    host: &str,
    prefix: &str,
    path: &str,
    now: u64,
) -> Result<Option<Response>, TenantError>
    requires below { starts_with nat_eq path.now prefix.now ≡ true }
    ensures { IfOk result (λ found. found ≡ None) }
{
    cache.purge_below(host, prefix)?;
    cache.get(host, path, now)
}
