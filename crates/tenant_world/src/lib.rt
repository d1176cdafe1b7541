//! A tenant's own world, and the law of isolation: what a run says to a namespace is what the
//! namespace's own objects, as they are written, give with the pages and the ticks.
//!
//! `specs/Tenants.antt` is a tenant's world, `specs/Runs.antt` the run of everyone, and
//! `specs/Isolation.antt` the law; `proofs/EventLaws.antt` is where its induction stands.
#![tactic(auto)]

ghost use Rattle.tenant_world.specs.Isolation.{IsIsolated};

/// What a run says to a tenant is what the tenant's own world says.
pub fn isolated()
    ensures { IsIsolated }
{}
