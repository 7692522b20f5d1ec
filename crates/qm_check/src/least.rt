//! The commands that find least lengths: each is a fit under a head line of its own.

ghost use Rattle.std.specs.Prelude.{◌≡◌};
ghost use Rattle.def_certtext.specs.Risings.{rounds_if};
ghost use Rattle.qm_check.specs.Least.{least_of, remeshed, scaled, terms_of};

use def_certtext::{Asked, Rising, Terms};
use def_fit::{Aim, Fit, Spacing};
use def_flow::Settings;
use def_patches::{Keep, Patches};
use def_run::Command;
use qm_certtext::third_if;
use qm_metric::{edge_fit, fit_settings};

/// What such a command asks for, and how floors rise.
#[derive(Clone, Copy)]
pub(crate) struct Least {
    pub(crate) fit: Fit,
    pub(crate) rising: Rising,
}

/// What a command asks for, if it finds least lengths.
pub(crate) fn least_of(command: &Command) -> Option<Least>
    ensures { result ≡ least_of command.now }
{
    let fit = match *command {
        Command::Remesh { settings, auto } => return Some(remeshed(Asked { settings, auto })),
        Command::Crease { settings } => scaled(Keep::Lines, Patches::Traced, settings),
        Command::Size { edge, floor } => edge_fit(edge, floor),
        Command::Coarse { settings } => scaled(Keep::Nothing, Patches::Merged, settings),
        Command::Fit { fit } => {
            return Some(Least {
                fit,
                rising: rounds_if(fit.auto),
            });
        }
        _ => return None,
    };
    Some(Least {
        fit,
        rising: Rising::Never,
    })
}

/// What `remesh` asks for.
pub(crate) fn remeshed(asked: Asked) -> Least
    ensures { result ≡ remeshed asked.settings asked.auto }
{
    Least {
        fit: scaled(Keep::Nothing, Patches::Traced, asked.settings),
        rising: third_if(asked.auto),
    }
}

/// How floors rise in a fit.
fn rounds_if(auto: bool) -> Rising
    ensures { result ≡ rounds_if auto }
{
    if auto { Rising::Rounds } else { Rising::Never }
}

/// A fit near the old lengths.
fn scaled(keep: Keep, patches: Patches, settings: Settings) -> Fit
    ensures { result ≡ scaled keep patches settings }
{
    Fit {
        keep,
        patches,
        aim: Aim::Scale {
            p: settings.p,
            q: settings.q,
        },
        floor: settings.floor,
        auto: false,
        weight: settings.weight,
        spacing: Spacing::Even,
    }
}

/// What its lengths are found by.
pub(crate) fn terms_of(least: &Least) -> Terms
    ensures { result ≡ terms_of least.now }
{
    Terms {
        settings: fit_settings(&least.fit),
        rising: least.rising,
    }
}
