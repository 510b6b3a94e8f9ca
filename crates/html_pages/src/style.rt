ghost use Rattle.std.specs.Prelude.{◌≡◌};
ghost use Rattle.html_pages.specs.Style.{style_text};

const STYLE: &[u8] =
    b":root{color-scheme:light dark;--ink:#1c2430;--soft:#5b6675;--line:#d5dbe3;--page:#fff;--card:#f5f7fa;--mark:#0b63ce}
@media(prefers-color-scheme:dark){:root{--ink:#e6eaf0;--soft:#9aa6b5;--line:#39424f;--page:#14181e;--card:#1d232b;--mark:#7db5ff}}
*{box-sizing:border-box}
body{margin:0 auto;padding:1.5rem 1rem 4rem;max-width:70rem;background:var(--page);color:var(--ink);font:1rem/1.5 system-ui,sans-serif;overflow-wrap:anywhere}
h1{font-size:1.7rem;margin:0 0 1rem}
h2{font-size:1.25rem;margin:2.2rem 0 .6rem;padding-top:.9rem;border-top:1px solid var(--line)}
h3{font-size:1rem;margin:1.1rem 0 .3rem;font-weight:600}
code,pre,li,svg text{font-family:ui-monospace,\"DejaVu Sans Mono\",monospace}
h3 code,summary code{margin-left:.6rem;color:var(--soft);font-size:.8rem;font-weight:400}
pre{margin:.3rem 0 .8rem;padding:.7rem .9rem;overflow-x:auto;background:var(--card);border:1px solid var(--line);border-radius:.4rem;font-size:.85rem;line-height:1.45}
table{border-collapse:collapse}
td{padding:.2rem 1.2rem .2rem 0;border-bottom:1px solid var(--line)}
td:first-child{font-weight:600}
td:nth-child(n+2){color:var(--soft)}
td:nth-child(4){color:var(--mark)}
td:nth-child(2){min-width:5rem}
td:nth-child(n+3){overflow-wrap:normal}
ul{margin:.3rem 0;padding:0;list-style:none}
li{padding:.15rem 0;font-size:.85rem}
summary{cursor:pointer;color:var(--mark);font-size:.9rem;padding:.15rem 0}
.p{overflow-x:auto;margin:.5rem 0}
svg{display:block;max-width:none}
svg rect{fill:var(--card);stroke:var(--line);rx:6}
svg text{font-size:14px;fill:var(--ink)}
svg .t{font-weight:700}
svg .k{text-decoration:underline}
svg .o{text-decoration:underline dashed}
svg path{fill:none;stroke:var(--mark);stroke-width:1.5}
svg circle{fill:var(--mark)}
@media print{pre{white-space:pre-wrap}}
";

/// The style of a page: light and dark, wide and narrow, on paper too.
#[tactic(auto, unfolding(crate::specs::Style::style_text))]
pub fn page_style() -> &'static [u8]
    ensures text { result.now ≡ style_text }
{
    STYLE
}
