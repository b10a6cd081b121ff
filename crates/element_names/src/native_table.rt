// Which elements of HTML forms are about.
ghost use Rattle.std.specs.Prelude.{◌≡◌};
ghost use Rattle.element_names.specs.Natives.{native};

use crate::Native;

/// The element with this local name (HTML Standard, section "Forms"): one that forms are about, or `Other`.
/// Upper and lower case differ, and the empty text is `Other` too.
pub fn native(local: &str) -> Native
    ensures { result ≡ native local.now }
{
    match local {
        "form" => Native::Form,
        "fieldset" => Native::Fieldset,
        "legend" => Native::Legend,
        "button" => Native::Button,
        "input" => Native::Input,
        "select" => Native::Select,
        "optgroup" => Native::Optgroup,
        "option" => Native::OptionItem,
        "textarea" => Native::Textarea,
        "datalist" => Native::Datalist,
        _ => Native::Other,
    }
}
