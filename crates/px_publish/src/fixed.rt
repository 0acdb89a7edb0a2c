// Sources of configurations that are known beforehand.
ghost use Rattle.std.specs.Prelude.{◌≡◌, ◌<◌, ◌≤◌, ◌∷◌, [], true, None, drop, length, map, take};
ghost use Rattle.std.specs.Arc.{arc_value};
ghost use Rattle.px_publish.specs.Views.{config_behind, numbered};

use crate::configs::{Configs, CountFull, Snapshot, another_owner};
use px_base::List;
use std::sync::Arc;

/// One configuration, with the number 0.
#[derive(Drop)]
pub struct FixedConfig<C: Drop> {
    config: Arc<C>,
}

impl<C: Drop> FixedConfig<C> {
    pub fn new(config: Arc<C>) -> FixedConfig<C>
        ensures view { ⟦<FixedConfig<C> as Configs>⟧.view result ≡ arc_value config ∷ [] }
        ensures coming { ⟦<FixedConfig<C> as Configs>⟧.coming result ≡ record { number = 0; config = arc_value config } ∷ [] }
    {
        FixedConfig { config }
    }
}

impl<C: Drop> Configs for FixedConfig<C> {
    type Held = C;

    ghost view = { λ f. arc_value f.config ∷ [] };

    ghost pair = { λ f. None };

    ghost tells = { true };

    ghost coming = { λ f. record { number = 0; config = arc_value f.config } ∷ [] };

    fn look(&mut self) {}

    fn current(&self) -> Snapshot<'_, C> {
        Snapshot {
            number: 0,
            config: &self.config,
        }
    }

    fn owner(&self) -> Result<Arc<C>, CountFull> {
        another_owner(&self.config)
    }
}

/// Configurations that are taken in turn. The k-th look, counted from 0, gives the one with the number k; past the list
/// the last one stays, and before the first look the source holds the one with the number 0.
#[derive(Drop)]
pub struct StepConfig<C: Drop> {
    first: Arc<C>,
    rest: Vec<Arc<C>>,
    // The number of the entry that it holds.
    number: usize,
    // The number of the entry that the next look gives.
    next: usize,
    ghost inside: { next ≤ length rest.items },
    ghost forward: { number ≤ next },
}

impl<C: Drop> StepConfig<C> {
    /// Takes no memory.
    pub fn new(configs: List<Arc<C>>) -> StepConfig<C>
        requires { 0 < length configs }
        ensures view { ⟦<StepConfig<C> as Configs>⟧.view result ≡ take 1 (map arc_value configs) }
        ensures coming { ⟦<StepConfig<C> as Configs>⟧.coming result ≡ numbered 0 (map arc_value configs) }
    {
        let mut rest = configs.into_vec();
        let first = rest.remove(0);
        StepConfig {
            first,
            rest,
            number: 0,
            next: 0,
        }
    }

    fn held(&self) -> &Arc<C>
        ensures { arc_value result.now ≡ config_behind (arc_value self.now.first) (map arc_value self.now.rest.items) self.now.number }
    {
        if self.number == 0 {
            &self.first
        } else {
            &self.rest[self.number - 1]
        }
    }
}

impl<C: Drop> Configs for StepConfig<C> {
    type Held = C;

    ghost view = { λ s. arc_value s.first ∷ take s.number (map arc_value s.rest.items) };

    ghost pair = { λ s. None };

    ghost tells = { true };

    ghost coming = { λ s. drop s.next (numbered 0 (arc_value s.first ∷ map arc_value s.rest.items)) };

    fn look(&mut self) {
        self.number = self.next;
        if self.next < self.rest.len() {
            self.next += 1;
        }
    }

    fn current(&self) -> Snapshot<'_, C> {
        Snapshot {
            number: self.number as u64,
            config: self.held(),
        }
    }

    fn owner(&self) -> Result<Arc<C>, CountFull> {
        another_owner(self.held())
    }
}
