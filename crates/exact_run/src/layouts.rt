// What is said of the rows of a layout beside its data.
ghost use Rattle.std.specs.Prelude.{◌≡◌};
ghost use Rattle.sample_reader.specs.Dropped.{MayPickFor};
ghost use Rattle.exact_run.specs.Layouts.{dropped_told, layout_refusal};

use record_reader::{LayoutFault, Missing, Rows};
use report::{Extra, Refusal, Sizes};
use run_outcome::{Heading, Request};
use sample_reader::{Layout, dropped};
use settings::{OptionName, Settings};

/// The refusal of a layout's fault.
pub(crate) fn layout_refusal(fault: LayoutFault) -> Refusal
    ensures { result ≡ layout_refusal fault }
{
    match fault {
        LayoutFault::Columns => Refusal::Unfit(OptionName::Columns),
        LayoutFault::At(fault) => Refusal::Row(fault),
        LayoutFault::NoMemory => Refusal::NoMemory,
    }
}

/// How many rows of a layout are left out, where those with a missing field are.
pub(crate) fn dropped_told(settings: &Settings, layout: Layout, rows: &Rows) -> Option<u64>
    requires { MayPickFor layout settings.now.picks }
    ensures { result ≡ dropped_told settings.now layout rows.now }
{
    match settings.missing {
        Missing::Refuse => None,
        Missing::Drop => Some(dropped(rows, &settings.picks, layout)),
    }
}

/// What a report says of data that were read in a layout.
pub(crate) fn heading_for(request: &Request, sizes: Sizes, layout: Layout, extra: Extra) -> Heading
    requires { MayPickFor layout request.now.settings.now.picks }
    ensures sizes { result.sizes ≡ sizes }
    ensures dropped { let told = dropped_told request.now.settings.now layout in
        result.dropped ≡ told request.now.rows.now }
    ensures extra { result.extra ≡ extra }
{
    Heading {
        sizes,
        dropped: dropped_told(request.settings, layout, request.rows),
        extra,
    }
}
