//! Why a layout is not remeshed with edges of a given length.

use def_layoutnet::NetFail;
use def_remesh::LayoutFail;
use std::alloc::AllocError;
use thiserror::Error;

/// Why a layout has no network for edges of a given length.
#[derive(Clone, Copy, Debug, PartialEq, Eq, Error)]
pub enum MetricFail {
    /// The tangle number is above the greatest for which a matching graph is built.
    #[error("tangled: {count}")]
    Tangled { count: u64 },
    /// The targets add up to more than the limit.
    #[error("far: {sum}")]
    Far { sum: u128 },
    #[error("out of memory")]
    Memory,
}

/// Why a layout is not remeshed with edges of a given length.
#[derive(Debug, Drop, Error)]
pub enum SizeFail {
    /// The targets add up to more than the limit.
    #[error("far: {sum}")]
    Far { sum: u128 },
    /// Its network is too tangled, its least lengths give no new mesh, or memory is wanting.
    #[error("{fail}")]
    Layout { fail: LayoutFail },
}

impl From<AllocError> for MetricFail {
    ghost use Rattle.std.specs.Prelude.{◌≡◌};
    ghost use Rattle.def_metric.specs.declared.fail.MetricFail.TheVariants.{Memory};

    ghost from_gives = { λ _ e. e ≡ Memory };

    fn from(_: AllocError) -> MetricFail {
        MetricFail::Memory
    }
}

impl From<NetFail> for MetricFail {
    ghost use Rattle.std.specs.Prelude.{◌≡◌};
    ghost use Rattle.def_metric.specs.Fails.{metric_fail_of};

    ghost from_gives = { λ fail e. e ≡ metric_fail_of fail };

    fn from(fail: NetFail) -> MetricFail {
        match fail {
            NetFail::Tangled { count } => MetricFail::Tangled { count },
            NetFail::Memory => MetricFail::Memory,
        }
    }
}

impl From<AllocError> for SizeFail {
    ghost use Rattle.std.specs.Prelude.{◌≡◌};
    ghost use Rattle.def_metric.specs.declared.fail.SizeFail.TheVariants as sizes;
    ghost use Rattle.def_remesh.specs.declared.kept.LayoutFail.TheVariants as layouts;

    ghost from_gives = { λ _ e. e ≡ sizes.Layout layouts.Memory };

    fn from(_: AllocError) -> SizeFail {
        SizeFail::Layout {
            fail: LayoutFail::Memory,
        }
    }
}

impl From<MetricFail> for SizeFail {
    ghost use Rattle.std.specs.Prelude.{◌≡◌};
    ghost use Rattle.def_metric.specs.Fails.{size_fail_of};

    ghost from_gives = { λ fail e. e ≡ size_fail_of fail };

    fn from(fail: MetricFail) -> SizeFail {
        match fail {
            MetricFail::Tangled { count } => SizeFail::Layout {
                fail: LayoutFail::Tangled { count },
            },
            MetricFail::Far { sum } => SizeFail::Far { sum },
            MetricFail::Memory => SizeFail::Layout {
                fail: LayoutFail::Memory,
            },
        }
    }
}

impl From<LayoutFail> for SizeFail {
    ghost use Rattle.std.specs.Prelude.{◌≡◌};
    ghost use Rattle.def_metric.specs.declared.fail.SizeFail.TheVariants as sizes;

    ghost from_gives = { λ fail e. e ≡ sizes.Layout fail };

    fn from(fail: LayoutFail) -> SizeFail {
        SizeFail::Layout { fail }
    }
}
