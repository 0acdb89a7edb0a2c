//! Pages and replies (Privoxy's manual, "Privoxy's Template Files").
#![tactic(auto, unfolding(core::specs::Fmt::digits, px_base::specs::Blanks::trimmed, px_templates::specs::Lines::assembled, px_templates::specs::Lines::included_name, px_templates::specs::Lines::text_lines, px_templates::specs::Lines::without_comments, px_templates::specs::Pieces::end_place, px_templates::specs::Pieces::front_at, px_templates::specs::Pieces::open_behind, px_templates::specs::Pieces::parts_behind, px_templates::specs::Pieces::pieces_behind, px_templates::specs::Rendering::escaped, px_templates::specs::Rendering::rendered, px_templates::specs::Replies::head_of, px_templates::specs::Replies::reply_of, px_templates::specs::Symbols::condition_at, px_templates::specs::Symbols::symbol_at))]

ghost use Rattle.std.specs.Prelude.{◌≡◌, ◌∷◌, [], Some, None, true, false, codes, length};
ghost use Rattle.px_templates.specs.Lines.{assembled, included_name};
ghost use Rattle.px_templates.specs.Pages.{built_in, page_name, page_status};
ghost use Rattle.px_templates.specs.Pieces.{open_line, pieces_of};
ghost use Rattle.px_templates.specs.Rendering.{escaped, rendered};
ghost use Rattle.px_templates.specs.Replies.{reply_of};
ghost use Rattle.px_templates.specs.declared.pages.Page.TheVariants as page;
ghost use Rattle.px_templates.specs.declared.replies.Local.TheVariants as local;
ghost use Rattle.px_rows.specs.Rows.{symbols};

/// A value in a page has its four marks of HTML escaped.
fn values_in_a_page()
    ensures marks { escaped (codes "a<b>&") ≡ codes "a&lt;b&gt;&amp;" }
    ensures quote { escaped (34 ∷ []) ≡ codes "&quot;" }
    ensures plain { escaped (codes "it's") ≡ codes "it's" }
{}

/// Lines that begin with `#` go, and `#include` stands for a text, whose own lines with `#` go too.
fn lines_of_templates()
    ensures comment { assembled [] (codes "a\n# x\nb\n") ≡ codes "a\nb\n" }
    ensures included { assembled ((codes "head", codes "h\n#include head\n") ∷ []) (codes "#include head\nb") ≡ codes "h\nb" }
    ensures missing { assembled [] (codes "#include head\nb") ≡ codes "b" }
    ensures name { included_name (codes "#include  a b \r\n") ≡ Some (codes "a b") }
    ensures no_space { included_name (codes "#includehead\n") ≡ None }
    ensures no_name { included_name (codes "#include \n") ≡ None }
{}

/// Symbols are replaced, and a block stands where its value isn't empty.
fn pages_with_values()
    ensures symbol { rendered (symbols (codes "a&b") [] [] [] [] [] []) (pieces_of (codes "@hostname@ @x@")) ≡ codes "a&amp;b @x@" }
    ensures block { rendered (symbols [] [] [] [] (codes "no") [] []) (pieces_of (codes "[@if-block-reason-start r=@block-reason@ if-block-reason-end@]"))
        ≡ codes "[ r=no ]" }
    ensures no_block { rendered (symbols [] [] [] [] [] [] []) (pieces_of (codes "[@if-block-reason-start r=@block-reason@ if-block-reason-end@]"))
        ≡ codes "[]" }
    ensures open { open_line (codes "x\n@if-parent-start y\n") ≡ Some 2 }
    ensures closed { open_line (codes "@if-parent-start y if-parent-end@") ≡ None }
{
    // Nothing runs: the prover computes the rows.
}

/// The names and statuses of the pages, and the lengths of the texts where an operator wrote none.
fn pages()
    ensures blocked { page_status page.Blocked ≡ codes "403 Forbidden" }
    ensures connect_failed { page_status page.ConnectFailed ≡ codes "503 Service Unavailable" }
    ensures no_such_domain { page_status page.NoSuchDomain ≡ codes "404 Not Found" }
    ensures forwarding_failed { page_status page.ForwardingFailed ≡ codes "503 Service Unavailable" }
    ensures no_server_data { page_status page.NoServerData ≡ codes "502 Bad Gateway" }
    ensures invalid_request { page_status page.InvalidRequest ≡ codes "400 Bad Request" }
    ensures head_too_long { page_status page.HeadTooLong ≡ codes "431 Request Header Fields Too Large" }
    ensures bad_reply { page_status page.BadReply ≡ codes "502 Bad Gateway" }
    ensures send_failed { page_status page.SendFailed ≡ codes "502 Bad Gateway" }
    ensures connect_denied { page_status page.ConnectDenied ≡ codes "403 Forbidden" }
    ensures bad_rewrite { page_status page.BadRewrite ≡ codes "500 Internal Server Error" }
    ensures name { page_name page.NoSuchDomain ≡ codes "no-such-domain" }
    ensures text { built_in page.ConnectFailed ≡ codes "<html><body>connect-failed</body></html>\n" }
    ensures short { length (built_in page.BadReply) ≡ 36 }
    ensures long { length (built_in page.ForwardingFailed) ≡ 44 }
    ensures too_long { length (built_in page.HeadTooLong) ≡ 40 }
{}

/// Replies without an origin.
fn replies()
    ensures redirect { reply_of (local.Redirect (codes "http://r.test/")) [] false false
        ≡ codes "HTTP/1.1 302 Found\r\nLocation: http://r.test/\r\nContent-Length: 0\r\nCache-Control: no-cache\r\nConnection: keep-alive\r\n\r\n" }
    ensures image { reply_of local.Image (codes "GIF89a") false false
        ≡ codes "HTTP/1.1 403 Forbidden\r\nContent-Type: image/gif\r\nContent-Length: 6\r\nCache-Control: no-cache\r\nConnection: keep-alive\r\n\r\nGIF89a" }
    ensures empty { reply_of (local.Empty true) [] true false
        ≡ codes "HTTP/1.1 200 OK\r\nContent-Type: text/html\r\nContent-Length: 1\r\nCache-Control: no-cache\r\nConnection: close\r\n\r\n " }
    ensures empty_refused { reply_of (local.Empty false) [] true false
        ≡ codes "HTTP/1.1 403 Forbidden\r\nContent-Type: text/html\r\nContent-Length: 1\r\nCache-Control: no-cache\r\nConnection: close\r\n\r\n " }
    ensures bodiless { reply_of local.Image (codes "GIF89a") true true
        ≡ codes "HTTP/1.1 403 Forbidden\r\nContent-Type: image/gif\r\nContent-Length: 6\r\nCache-Control: no-cache\r\nConnection: close\r\n\r\n" }
{}
