//! The names that an image imports.

ghost use Rattle.std.specs.Prelude.{◌≡◌, ◌<◌, ℕ, [], IfOk, OnOk, length, map, slice_index_or};
ghost use Rattle.std.specs.List.{All};
ghost use Rattle.elf_object.specs.Parts.{symbol_count};
ghost use Rattle.tls_symbols.specs.Bindings.{bound_to, may, object_at};
ghost use Rattle.dynamic_symbols.specs.Names.{imported_in, imports, is_startup};
ghost use Rattle.dynamic_symbols.specs.Found.{imports_any, with_names};
ghost use Rattle.sequence_match.specs.Sites.{HaveSymbols};

use elf_object::Object;
use indexmap::IndexSet;
use link_faults::Binding;
use sequence_match::Site;
use std::alloc::{AllocError, Global};
use tls_symbols::{Bindings, Imports, imports_of};

/// Whether a symbol of an object is bound to a startup image.
fn is_startup(bindings: &Bindings, index: usize, symbol: u32, imports: Imports) -> bool
    requires object { index < length bindings.now.objects }
    requires symbol { symbol < symbol_count (object_at bindings.now.objects index) }
    ensures { result ≡ is_startup
        (bound_to bindings.now.objects bindings.now.startup index symbol (may imports)) }
{
    matches!(
        bindings.binding(index, symbol, imports),
        Some(Binding::Startup(_))
    )
}

/// Whether any symbol of an object is bound to a startup image if it may be one's variable.
fn may_import(bindings: &Bindings, index: usize, object: &Object) -> bool
    requires object { index < length bindings.now.objects }
    requires here { object.now ≡ object_at bindings.now.objects index }
    ensures { result ≡ imports_any bindings.now.objects bindings.now.startup index object.now }
{
    (0..object.symbol_count()).any(|symbol| is_startup(bindings, index, symbol, Imports::Yes))
}

/// Adds the names that an object's sites import.
fn add_imported<'a>(
    bindings: &Bindings,
    index: usize,
    object: &Object<'a>,
    sites: &[Site],
    names: &mut IndexSet<&'a [u8]>,
) -> Result<(), AllocError>
    requires object { index < length bindings.now.objects }
    requires here { object.now ≡ object_at bindings.now.objects index }
    requires symbols { HaveSymbols object.now sites.now }
    ensures { OnOk result (map (λ name. name.now) names.new.keys
        ≡ with_names (map (λ name. name.now) names.old.keys)
        (imported_in bindings.now.objects bindings.now.startup index sites.now)) }
{
    for site in sites {
        let imports = imports_of(site.form.row().first);
        if is_startup(bindings, index, site.symbol, imports) {
            names.insert(object.symbol_name(site.symbol))?;
        }
    }
    Ok(())
}

/// The names that an image of these objects takes from startup images: each name that a sequence of an object uses and
/// that is bound to a startup image. `sites` has the sequences of each object. The names are in the order of their
/// first sites. Fails only when memory runs out.
pub fn imports<'a>(
    alloc: Global,
    objects: &[Object<'a>],
    bindings: &Bindings,
    sites: &[Vec<Site>],
) -> Result<IndexSet<&'a [u8]>, AllocError>
    requires objects { objects.now ≡ bindings.now.objects }
    requires each { length sites.now ≡ length objects.now }
    requires symbols { (o : ℕ) → o < length objects.now
        → HaveSymbols (object_at objects.now o) (slice_index_or (map (λ own. own.items) sites.now) o []) }
    ensures { IfOk result (λ names. map (λ name. name.now) names.keys
        ≡ imports objects.now bindings.now.startup (map (λ own. own.items) sites.now)) }
{
    let mut names = IndexSet::new(alloc);
    for (index, own) in sites.iter().enumerate() {
        let object = &objects[index];
        if may_import(bindings, index, object) {
            add_imported(bindings, index, object, own, &mut names)?;
        }
    }
    Ok(names)
}
