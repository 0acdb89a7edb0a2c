// What a list of hosts and the patterns of its hosts say.
ghost use Rattle.std.specs.Prelude.{◌≡◌, List, ℕ};
ghost use Rattle.std.specs.List.{list_any};
ghost use Rattle.px_host_lists.specs.Hosts.{is_listed};
ghost use Rattle.px_host_lists.specs.Readings.{list_entries};
ghost use Rattle.px_list_patterns.specs.Dotted.{is_matched};
ghost use Rattle.px_list_patterns.specs.Sections.{AreReadFrom, lists_as_sections};
ghost use Rattle.px_merge.specs.Merged.{Merged};
ghost use Rattle.px_merge.specs.Merging.{url_actions};
ghost use Rattle.px_patterns.specs.declared.urls.Url.{Url};

/// A URL's host is on the list of a file exactly where the URL pattern `.name` of one of its entries matches the URL.
pub fn lists_are_patterns()
    ensures { (bytes : List ℕ) (url : Url) → is_listed (list_entries bytes) url.host ≡ list_any (λ entry. is_matched entry.host url) (list_entries bytes) }
{}

/// Lists that were read from files set for a URL what is set without lists and with a section of URL patterns `.name` in front
/// for each of the files.
pub fn lists_are_sections()
    ensures { (merged : Merged) (files : List (List ℕ)) (url : Url) (tags : List (List ℕ)) → AreReadFrom files merged.lists → url_actions merged url tags ≡ url_actions (lists_as_sections files merged) url tags }
{}
