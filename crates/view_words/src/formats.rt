// The formats, with what else is asked for.

ghost use Rattle.std.specs.Prelude.{◌≡◌};
ghost use Rattle.view_words.specs.Kinds.{with_blocks, with_calls, with_changes, with_part, with_paths, with_picture, with_source, with_steps, with_title};

use crate::options::Format;

/// The format with paths, where they are asked for. None where it has none.
pub(crate) fn with_paths(is: bool, format: Format) -> Option<Format>
    ensures { result ≡ with_paths is format }
{
    if !is {
        return Some(format);
    }
    match format {
        Format::Dot => None,
        Format::Calls => None,
        Format::Blocks => None,
        Format::Json => Some(Format::JsonPaths),
        Format::JsonPaths => Some(Format::JsonPaths),
        Format::JsonChanges => None,
        Format::Steps => None,
        Format::Report => None,
        Format::Html => Some(Format::HtmlPaths),
        Format::HtmlPaths => Some(Format::HtmlPaths),
        Format::HtmlSteps => None,
    }
}

/// The format with differences, where they are asked for. None where it has none.
pub(crate) fn with_changes(is: bool, format: Format) -> Option<Format>
    ensures { result ≡ with_changes is format }
{
    if !is {
        return Some(format);
    }
    match format {
        Format::Dot => Some(Format::Dot),
        Format::Calls => None,
        Format::Blocks => None,
        Format::Json => Some(Format::JsonChanges),
        Format::JsonPaths => None,
        Format::JsonChanges => Some(Format::JsonChanges),
        Format::Steps => None,
        Format::Report => None,
        Format::Html => None,
        Format::HtmlPaths => None,
        Format::HtmlSteps => None,
    }
}

/// The format, where it fits to that. None where it is no picture.
pub(crate) fn with_picture(is: bool, format: Format) -> Option<Format>
    ensures { result ≡ with_picture is format }
{
    if !is {
        return Some(format);
    }
    match format {
        Format::Dot => Some(Format::Dot),
        Format::Calls => Some(Format::Calls),
        Format::Blocks => Some(Format::Blocks),
        Format::Json => None,
        Format::JsonPaths => None,
        Format::JsonChanges => None,
        Format::Steps => None,
        Format::Report => None,
        Format::Html => None,
        Format::HtmlPaths => None,
        Format::HtmlSteps => None,
    }
}

/// The format with the call graph, where it is asked for. None where it has none.
pub(crate) fn with_calls(is: bool, plain: bool, format: Format) -> Option<Format>
    ensures { result ≡ with_calls is plain format }
{
    if !is {
        return Some(format);
    }
    match format {
        Format::Dot => { if plain { Some(Format::Calls) } else { None } },
        Format::Calls => { if plain { Some(Format::Calls) } else { None } },
        Format::Blocks => None,
        Format::Json => None,
        Format::JsonPaths => None,
        Format::JsonChanges => None,
        Format::Steps => None,
        Format::Report => None,
        Format::Html => None,
        Format::HtmlPaths => None,
        Format::HtmlSteps => None,
    }
}

/// The format with blocks, where they are asked for. None where it has none.
pub(crate) fn with_blocks(is: bool, fits: bool, format: Format) -> Option<Format>
    ensures { result ≡ with_blocks is fits format }
{
    if !is {
        return Some(format);
    }
    match format {
        Format::Dot => { if fits { Some(Format::Blocks) } else { None } },
        Format::Calls => None,
        Format::Blocks => { if fits { Some(Format::Blocks) } else { None } },
        Format::Json => None,
        Format::JsonPaths => None,
        Format::JsonChanges => None,
        Format::Steps => None,
        Format::Report => None,
        Format::Html => None,
        Format::HtmlPaths => None,
        Format::HtmlSteps => None,
    }
}

/// The format with rounds, where they are asked for. None where it has none.
pub(crate) fn with_steps(is: bool, one: bool, format: Format) -> Option<Format>
    ensures { result ≡ with_steps is one format }
{
    if !is {
        return Some(format);
    }
    match format {
        Format::Dot => None,
        Format::Calls => None,
        Format::Blocks => None,
        Format::Json => { if one { Some(Format::Steps) } else { None } },
        Format::JsonPaths => None,
        Format::JsonChanges => None,
        Format::Steps => { if one { Some(Format::Steps) } else { None } },
        Format::Report => None,
        Format::Html => { if one { Some(Format::HtmlSteps) } else { None } },
        Format::HtmlPaths => None,
        Format::HtmlSteps => { if one { Some(Format::HtmlSteps) } else { None } },
    }
}

/// The format, where it fits to that. None where it has no parts.
pub(crate) fn with_part(is: bool, bare: bool, format: Format) -> Option<Format>
    ensures { result ≡ with_part is bare format }
{
    if !is {
        return Some(format);
    }
    match format {
        Format::Dot => None,
        Format::Calls => None,
        Format::Blocks => None,
        Format::Json => { if bare { Some(Format::Json) } else { None } },
        Format::JsonPaths => None,
        Format::JsonChanges => None,
        Format::Steps => None,
        Format::Report => Some(Format::Report),
        Format::Html => None,
        Format::HtmlPaths => None,
        Format::HtmlSteps => None,
    }
}

/// The format with the lines of the source, where they are asked for. None where it has none, and for a part of lines of JSON.
pub(crate) fn with_source(is: bool, part: bool, format: Format) -> Option<Format>
    ensures { result ≡ with_source is part format }
{
    if !is {
        return Some(format);
    }
    match format {
        Format::Dot => None,
        Format::Calls => None,
        Format::Blocks => None,
        Format::Json => { if part { None } else { Some(Format::Json) } },
        Format::JsonPaths => Some(Format::JsonPaths),
        Format::JsonChanges => Some(Format::JsonChanges),
        Format::Steps => None,
        Format::Report => None,
        Format::Html => Some(Format::Html),
        Format::HtmlPaths => Some(Format::HtmlPaths),
        Format::HtmlSteps => None,
    }
}

/// The format, where it fits to that. None where it has no title.
pub(crate) fn with_title(is: bool, format: Format) -> Option<Format>
    ensures { result ≡ with_title is format }
{
    if !is {
        return Some(format);
    }
    match format {
        Format::Dot => None,
        Format::Calls => None,
        Format::Blocks => None,
        Format::Json => None,
        Format::JsonPaths => None,
        Format::JsonChanges => None,
        Format::Steps => None,
        Format::Report => None,
        Format::Html => Some(Format::Html),
        Format::HtmlPaths => Some(Format::HtmlPaths),
        Format::HtmlSteps => Some(Format::HtmlSteps),
    }
}
