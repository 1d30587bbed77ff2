//! The controller's state, and what it tells of it.

ghost use Rattle.std.specs.Prelude.{◌≡◌, IfOk};
ghost use Rattle.std.specs.Option.{option_copied};
ghost use Rattle.lazy_rules.specs.ControlState.{first_control, first_spares, newest, latest_started, base_of, taken_items};
ghost use Rattle.view_ctl.specs.Stages.{kind_of};

use crate::phase::CtlPhase;
use crate::stage::{Reign, Stage};
use plain_lists::Sequence;
use rec_id::{ItemList, WindowList};
use seen_window::SeenWindow;
use std::alloc::{AllocError, Global};
use std::marker::Model;
use view_config::{Config, NodeList, Shape, seq_id};

/// What the controller knows and keeps.
#[derive(Drop)]
pub struct Controller {
    pub(crate) alloc: Global,
    pub(crate) shape: Shape,
    pub(crate) spares: NodeList,
    pub(crate) base: u32,
    pub(crate) window: WindowList,
    pub(crate) stage: Stage,
}

impl Model for Controller {
    ghost use Rattle.lazy_rules.specs.ControlState.{ControlState};
    ghost use Rattle.view_ctl.specs.Stages.{phase_of};

    ghost Value = { ControlState };

    ghost view = { λ a. record { shape = a.shape; spares = a.spares; base = a.base; window = a.window; phase = phase_of a.stage } };
}

/// The numbers of the spares.
#[tactic(auto, using(crate::proofs::Spares::one_more))]
fn first_spares(alloc: Global, shape: &Shape) -> Result<NodeList, AllocError>
    ensures { IfOk result (λ spares. spares ≡ first_spares shape.now) }
{
    let mut spares = Sequence::new(alloc);
    for i in 0..shape.spares {
        spares.push(seq_id(shape.seq + i))?;
    }
    Ok(spares)
}

impl Controller {
    /// The controller at first: view 1 runs, and all its replicas have started it.
    pub fn new(alloc: Global, shape: &Shape) -> Result<Controller, AllocError>
        ensures { IfOk result (λ made. made ≡ first_control shape.now) }
    {
        let config = Config::initial(alloc, shape)?;
        let started = config.seq.copy()?;
        let window = SeenWindow::new(alloc, shape.clients, shape.edition.window())?;
        Ok(Controller {
            alloc,
            shape: *shape,
            spares: first_spares(alloc, shape)?,
            base: 0,
            window: window.image()?,
            stage: Stage::Running(Reign { config, started }),
        })
    }

    /// The newest configuration: of the view that runs, or of the one that comes.
    pub fn newest(&self) -> &Config
        ensures { result.now ≡ newest self.now }
    {
        match &self.stage {
            Stage::Running(reign) => &reign.config,
            Stage::Sealing(change) => &change.coming,
            Stage::Flushing(taken) => &taken.config,
        }
    }

    /// What it is at.
    pub fn phase(&self) -> CtlPhase
        ensures { result ≡ kind_of self.now.phase }
    {
        match &self.stage {
            Stage::Running(_) => CtlPhase::Running,
            Stage::Sealing(_) => CtlPhase::Sealing,
            Stage::Flushing(_) => CtlPhase::Flushing,
        }
    }

    /// The configuration of the latest started view, `None` while a taken state is flushed.
    pub fn started(&self) -> Option<&Config>
        ensures { option_copied result ≡ latest_started self.now.phase }
    {
        match &self.stage {
            Stage::Running(reign) => Some(&reign.config),
            Stage::Sealing(change) => Some(&change.old),
            Stage::Flushing(_) => None,
        }
    }

    /// How many positions are bound: of the taken state while it is flushed, else where the latest
    /// started view began.
    pub fn base(&self) -> u32
        ensures { result ≡ base_of self.now }
    {
        match &self.stage {
            Stage::Running(_) => self.base,
            Stage::Sealing(_) => self.base,
            Stage::Flushing(taken) => taken.from,
        }
    }

    /// The items of the taken state, behind what is bound of it, `None` while there is no taken state.
    pub fn taken(&self) -> Option<&ItemList>
        ensures { option_copied result ≡ taken_items self.now.phase }
    {
        match &self.stage {
            Stage::Running(_) => None,
            Stage::Sealing(_) => None,
            Stage::Flushing(taken) => Some(&taken.items),
        }
    }
}
