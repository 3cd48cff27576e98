//! What an HTML page begins and ends with, and its style.

ghost use Rattle.std.specs.Prelude.{◌≡◌};
ghost use Rattle.page_core.specs.Head as page;

/// What is written before the first part of a page, with how a browser shows it: by day, by night
/// and on paper, on narrow screens and on wide ones.
const HEAD: &[u8] = b"\
<!DOCTYPE html>\n\
<html lang=\"en\">\n\
<head>\n\
<meta charset=\"utf-8\">\n\
<meta name=\"viewport\" content=\"width=device-width, initial-scale=1\">\n\
<title>spike: proofs</title>\n\
<style>\n\
:root{color-scheme:light dark;--ink:#1b1f24;--paper:#fff;--soft:#505a68;--line:#c6ccd6;\n\
--mark:#ffe28a;--target:#e3edfd;--link:#0a55c4}\n\
@media (prefers-color-scheme:dark){\n\
:root{--ink:#e4e7ec;--paper:#14171c;--soft:#a9b3c1;--line:#434c5a;\n\
--mark:#695312;--target:#1f2e47;--link:#8fbaf8}\n\
}\n\
body{max-width:72rem;margin:0 auto;padding:1rem clamp(.75rem,2.5vw,2rem) 4rem;\n\
color:var(--ink);background:var(--paper);font:1rem/1.5 system-ui,sans-serif;\n\
overflow-wrap:anywhere}\n\
h1{font-size:1.5rem;line-height:1.25}\n\
h2{margin:3rem 0 .5rem;font-size:1.15rem;line-height:1.3}\n\
p{margin:.5rem 0}\n\
a{color:var(--link)}\n\
.goals{padding:0;list-style:none}\n\
.goals,.node,.value,summary{font:.9rem/1.5 ui-monospace,monospace}\n\
.goals>li,.node,.value{padding-left:4ch;text-indent:-4ch;white-space:pre-wrap}\n\
.node{margin-top:.75rem}\n\
.step{margin:0;padding-left:2.2rem;color:var(--soft);font-size:.9rem}\n\
details{margin:.75rem 0;padding-left:clamp(.4rem,1.5vw,1rem);\n\
border-left:2px solid var(--line)}\n\
summary{font-weight:600;cursor:pointer}\n\
mark{padding:.05em .1em;border-radius:.2em;color:inherit;background:var(--mark)}\n\
:target{scroll-margin-top:1rem}\n\
.node:target,section:target>h2{background:var(--target);outline:.2rem solid var(--target)}\n\
@media print{\n\
:root{color-scheme:light;--ink:#000;--paper:#fff;--soft:#000;--line:#888;\n\
--mark:#ddd;--target:#fff;--link:#000;font-size:10pt}\n\
body{max-width:none;padding:0}\n\
h2,summary,.node{break-after:avoid}\n\
.node,.step,summary{break-inside:avoid}\n\
}\n\
</style>\n\
</head>\n\
<body>\n\
";

#[tactic(auto, unfolding(crate::specs::Head::head, crate::specs::Head::style_sheet))]
pub(crate) fn head() -> &'static [u8]
    ensures { result.now ≡ page.head }
{
    HEAD
}
