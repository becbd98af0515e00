// Places that trips would take.
ghost use Rattle.std.specs.Prelude.{◌≡◌, ◌<◌, ◌≤◌, ◌+◌, false, is_some, List, [], ◌∷◌, ◌++◌};
ghost use Rattle.std.specs.Prelude.{length, replicate, slice_get, slice_set, None, Some, IfOk};
ghost use Rattle.std.specs.Prelude.{IfNone, IfSome, OnErr, OnOk};
ghost use Rattle.plan_search.specs.Claims.{claim_at, AreClaims, AreFlagged};

use plan_num::NoMemory;
use std::alloc::Global;
use std::marker::Model;

/// A trip would take a place, and leave another one for whoever comes from there.
#[derive(Clone, Copy)]
pub struct Claim {
    /// The trip; none where the place would be left without one.
    pub by: Option<usize>,
    /// The place that this leaves; none for the trip that looks for one.
    pub from: Option<usize>,
    /// How many places were claimed before.
    pub step: usize,
}

/// The claim on each place, and the places in the order in which they were claimed.
pub struct Claims {
    claims: Vec<Option<Claim>>,
    order: Vec<usize>,
    // Whether each place is claimed, which is asked most.
    flags: Vec<bool>,
}

impl Drop for Claims {
    fn drop(self) {
        let Claims {
            claims: _,
            order: _,
            flags: _,
        } = self;
    }
}

impl Model for Claims {
    ghost use Rattle.plan_search.specs.Claims.{ClaimsParts, AreFlagged};

    ghost Value = { ClaimsParts };

    ghost view = { λ claims. record { at = claims.claims.items; order = claims.order.items } };

    ghost invariant = { λ claims. AreFlagged
        (record { at = claims.claims.items; order = claims.order.items }) claims.flags.items };
}

impl Claims {
    /// So many places without a claim.
    #[tactic(auto, using(crate::proofs::Flags::none_flagged))]
    pub fn new(alloc: Global, places: usize) -> Result<Claims, NoMemory>
        ensures { IfOk result (λ made. made ≡ record { at = replicate places None; order = [] }) }
    {
        let mut claims = Vec::new(alloc);
        for _place in 0..places {
            claims.push(None)?;
        }
        Ok(Claims {
            claims,
            order: Vec::new(alloc),
            flags: no_flags(alloc, places)?,
        })
    }

    /// Takes all claims back.
    #[tactic(auto, using(crate::proofs::Flags::none_flagged))]
    pub fn clear(&mut self)
        ensures { self.new ≡ record { at = replicate (length self.old.at) None; order = [] } }
    {
        take_back(&mut self.claims, &mut self.flags, &self.order);
        self.order.clear();
    }

    /// How many places are claimed.
    pub fn count(&self) -> usize
        ensures count { result ≡ length self.now.order }
        ensures claims { AreClaims self.now }
    {
        self.order.len()
    }

    /// The place that was claimed after so many others.
    pub fn nth(&self, step: usize) -> usize
        requires { step < length self.now.order }
        ensures value { slice_get self.now.order step ≡ Some result }
        ensures within { result < length self.now.at }
    {
        self.order[step]
    }

    /// The claim on a place.
    pub fn at(&self, place: usize) -> Option<Claim>
        requires { place < length self.now.at }
        ensures { result ≡ claim_at self.now place }
    {
        self.claims[place]
    }

    /// Whether a place is claimed.
    #[tactic(auto, using(crate::proofs::Flags::flag_there))]
    pub fn is_claimed(&self, place: usize) -> bool
        requires { place < length self.now.at }
        ensures { result ≡ is_some (claim_at self.now place) }
    {
        self.flags[place]
    }

    /// Claims a place that is not claimed.
    #[tactic(auto, using(crate::proofs::ClaimLists::claimed_more, crate::proofs::ClaimLists::few_claims))]
    pub fn claim(
        &mut self,
        place: usize,
        by: Option<usize>,
        from: Option<usize>,
    ) -> Result<(), NoMemory>
        requires place { place < length self.old.at }
        requires open { claim_at self.old place ≡ None }
        ensures claimed { OnOk result (self.new ≡ record {
          at = slice_set self.old.at place (Some (record { by = by; from = from; step = length self.old.order }));
          order = self.old.order ++ place ∷ [];
        }) }
        ensures kept { OnErr result (self.new ≡ self.old) }
        ensures few { length self.old.order < length self.old.at }
        ensures claims { AreClaims self.old }
    {
        let step = self.count();
        self.order.push(place)?;
        self.claims[place] = Some(Claim { by, from, step });
        self.flags[place] = true;
        Ok(())
    }
}

// Takes all claims back, which stand in an order.
fn take_back(claims: &mut Vec<Option<Claim>>, flags: &mut Vec<bool>, order: &[usize])
    requires { AreFlagged (record { at = claims.old.items; order = order.now }) flags.old.items }
    ensures claims { claims.new.items ≡ replicate (length claims.old.items) None }
    ensures flags { flags.new.items ≡ replicate (length claims.old.items) false }
{
    for place in order {
        claims[*place] = None;
        flags[*place] = false;
    }
}

// So many flags that are not set.
fn no_flags(alloc: Global, places: usize) -> Result<Vec<bool>, NoMemory>
    ensures { IfOk result (λ flags. flags.items ≡ replicate places false) }
{
    let mut flags = Vec::new(alloc);
    for _place in 0..places {
        flags.push(false)?;
    }
    Ok(flags)
}
