//! The page that a command asks for, as the text of a yes.

use clause_core::Report;
use file_replies::YesText;
use page_core::Format;
use report_pages::report_page;
use spec_admit::Admitted;
use spec_order::AnyOrder;
use std::alloc::Global;
use term_core::OutOfMemory;

/// The page that is written if a report is accepted.
#[derive(Clone, Copy)]
pub struct AskedPage<'a> {
    pub form: Format,
    /// The name of the file, which is the page's title.
    pub file: &'a str,
    /// The name of the goal that is shown; none: all goals are.
    pub goal: Option<&'a str>,
}

impl<'a> YesText for AskedPage<'a> {
    ghost use Rattle.std.specs.Prelude.{option_map};
    ghost use Rattle.show_cli.specs.Pages.{IsPage};

    ghost is_text = { λ page. IsPage page.form page.file.now
        (option_map (λ name. name.now) page.goal) };

    fn text(
        &self,
        alloc: Global,
        admitted: &Admitted<AnyOrder>,
        report: &Report,
    ) -> Result<Vec<u8>, OutOfMemory> {
        let AskedPage { form, file, goal } = *self;
        report_page(alloc, admitted, file, goal, report, form)
    }
}
